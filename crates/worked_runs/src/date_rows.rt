//! Runs over one archive: which messages are of the days of a pattern, at noon of 18 May 2003.

/// The whole of each day is in a range, and an open end is the moment of the run. A day without a year is the latest
/// one before that moment. Only the first Date field counts, and if it can't be read there is no date.
pub const DATE_ROWS: &str = "\
words -f, rc, --once, -r
rcfile mbox=m.mbox|database=m.idx|mfolder=hits|
archives ^Date: Sun, 4 May 2003 23:59:59 +0000||x||
d:6w-2w => found 1: 0 79 m.mbox|
archives ^Date: Mon, 5 May 2003 00:00:00 +0000||x||
d:6w-2w => none
archives ^Date: Sun, 4 May 2003 18:59:59 -0500||x||
d:6w-2w => found 1: 0 79 m.mbox|
archives ^Date: Sun, 4 May 2003 19:00:00 -0500||x||
d:6w-2w => none
archives ^Date: Sun, 6 Apr 2003 00:00:00 +0000||x||
d:6w-2w => found 1: 0 79 m.mbox|
archives ^Date: Sat, 5 Apr 2003 23:59:59 +0000||x||
d:6w-2w => none
archives ^Date: 21, Apr 2003 00:00:00 UTC +0000||x||
d:21apr- => found 1: 0 80 m.mbox|
archives ^Date: Sun 18 May 2003 12:00:00 +0000||x||
d:21apr- => found 1: 0 79 m.mbox|
archives ^Date: Sun 18 May 2003 12:00:01 +0000||x||
d:21apr- => none
archives ^Date: Sun 11 May 2003 23:59:59 +0000||x||
d:21apr-1w => found 1: 0 79 m.mbox|
archives ^Date: Mon 12 May 2003 00:00:00 +0000||x||
d:21apr-1w => none
archives ^Date: 31 Mar 2003 23:59:59||x||
d:mar => found 1: 0 69 m.mbox|
archives ^Date: 31 Mar 2002 23:59:59||x||
d:mar => none
archives ^Date: 01 Apr 2003 00:00:00||x||
d:mar => none
d:21apr-mar => none
archives ^Date: 01 Oct 2002 00:00:00||x||
d:oct => found 1: 0 69 m.mbox|
archives ^Date: 30 Sep 2002 23:59:59||x||
d:oct => none
archives ^Date: 21 Oct 2002 00:00:00||x||
d:21oct-mar => found 1: 0 69 m.mbox|
archives ^Date: 20 Oct 2002 23:59:59||x||
d:21oct-mar => none
archives ^Date: 21 Apr 2002 00:00:00||x||
d:21apr-mar => found 1: 0 69 m.mbox|
archives ^Date: 31 Dec 2002 23:59:59||x||
d:2002 => found 1: 0 69 m.mbox|
archives ^Date: 01 Jan 2003 00:00:00||x||
d:2002 => none
archives ^Date: 4 May 2003 10:00|Date: 1 Jan 1990 10:00||x||
d:6w-2w => found 1: 0 88 m.mbox|
d:1990 => none
archives ^Date: 31 Apr 2003 10:00|Date: 4 May 2003 10:00||x||
d:1970- => none
d:6w-2w => none
";
