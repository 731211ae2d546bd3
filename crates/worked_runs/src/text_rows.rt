//! Runs over one archive: which texts of a message are searched.

/// Fields and encoded words, bodies, and how much of a line, a header and parts is read.
pub const TEXT_ROWS: &str = "\
words -f, rc, --once, -r
rcfile mbox=m.mbox|database=m.idx|mfolder=hits|
archives ^Subject: Hello||hi||
s:hello => found 1: 0 58 m.mbox|
s:hell => none
b:hi => found 1: 0 58 m.mbox|
b:hello => none
s:hi => none
archives ^Subject: Hello||hi|
s:hello => found 1: 0 57 m.mbox|
archives ^Subject: Hello||hi
b:hi => found 1: 0 56 m.mbox|
archives ^Subject: one||a||From here on we go||From - Sat Jan  4 12:00:00 2003|Subject: two||b||
s:one => found 1: 0 75 m.mbox|
s:two => found 1: 75 49 m.mbox|
archives {}
s:one => none
archives ||
s:one => none
archives |From a 10:00 2003|
s:a => none
archives ^Subject: =?iso-8859-1?Q?Gr=FC=DFe?=||x||
s:GRÜSSE => found 1: 0 78 m.mbox|
archives ^Subject: =?utf-8?Q?lun?=| =?utf-8?Q?ch?=||x||
s:lunch => found 1: 0 83 m.mbox|
s:lun => none
archives ^Content-Transfer-Encoding: quoted-printable||lunch=|break||
b:lunchbreak => found 1: 0 97 m.mbox|
b:lunch => none
archives ^Content-Type: text/plain; charset=utf-8|Content-Transfer-Encoding: base64||ZsO|8cg==||
b:für => found 1: 0 124 m.mbox|
archives ^Content-Type: multipart/mixed; boundary=o||--o|Content-Type: multipart/mixed; boundary=i||--i||inner|--o||outer|--o--||
b:inner => found 1: 0 157 m.mbox|
b:outer => found 1: 0 157 m.mbox|
b:inner,outer => found 1: 0 157 m.mbox|
b:o => none
archives ^Content-Type: text/html||<p>Mee<b>t||
b:mee => found 1: 0 75 m.mbox|
b:meet => none
archives ^Subject: a||{65533* }wxyz||
b:wxy => found 1: 0 65589 m.mbox|
b:z => found 1: 0 65589 m.mbox|
b:wxyz => none
archives ^Subject: a||{65532* }wxyz||
b:wxyz => found 1: 0 65588 m.mbox|
archives ^{16*Content-Type: message/rfc822||}|deep||
b:deep => found 1: 0 525 m.mbox|
archives ^{17*Content-Type: message/rfc822||}|deep||
b:deep => none
archives ^{4095*X: aaaaaaaaaaaaaaaaaaaaaaaaaaaaaaaaaaaaaaaaaaaaaaaaaaaaaaaaaaaa|}Subject: late||x||
s:late => found 1: 0 262136 m.mbox|
archives ^{4096*X: aaaaaaaaaaaaaaaaaaaaaaaaaaaaaaaaaaaaaaaaaaaaaaaaaaaaaaaaaaaa|}Subject: late||x||
s:late => none
";
