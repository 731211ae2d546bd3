//! Runs that are refused.

/// Words, rcfiles, patterns, boolean queries and archives that are refused. The first faulty pattern is reported, and
/// the first faulty archive.
pub const REFUSAL_ROWS: &str = "\
rcfile mbox=m.mbox|database=m.idx|mfolder=hits|
archives {}
--once, s:a => refused 2: bad words
-h => refused 0: help
-V => refused 0: version
archives ^Subject: Hello||hi||
-f, rc, -rx, s:a => refused 2: -r and -x exclude each other
-f, rc, --once, -r => refused 2: query item 1: no pattern
-f, rc, --boolean, subject:a subject:b => refused 2: query item 2: operator needed
-f, rc, --boolean, a or => refused 2: query item 3: term missing
-f, rc, --boolean, (a => refused 2: query item 3: bad parenthesis
-f, rc, --boolean, subject:\"a => refused 2: query item 1: phrase not supported
-f, rc, --boolean, ((((((((((((((((((((((((((((((( => refused 2: query item 31: too deep
-f, rc, --boolean,   => refused 2: query item 1: no pattern
-f, rc, -t, q:x => refused 2: query item 1: bad prefix
words -f, rc, --once, -r
q:x => refused 2: query item 1: bad prefix
mn:x => refused 2: query item 1: bad prefix
:x => refused 2: query item 1: bad prefix
sm:x => refused 2: query item 1: bad prefix
s: => refused 2: query item 1: bad word
b: => refused 2: query item 1: bad word
s:a b => refused 2: query item 1: bad word
f:alice=2 => refused 2: query item 1: approximate match not supported
z:10 => refused 2: query item 1: bad size
z:9007199254740992k- => refused 2: query item 1: bad size
d:31apr => refused 2: query item 1: bad date
d:01oct => refused 2: query item 1: bad date
F:x => refused 2: query item 1: bad flag
s:hello, q:x, z:10 => refused 2: query item 2: bad prefix
s:hello, b:hi, z:10 => refused 2: query item 3: bad size
s:hello, s:, b:hi => refused 2: query item 2: bad word
d:31apr, s:, b:hi => refused 2: query item 1: bad date
words -f, rc, --once
rcfile mbox=a*|
s:hello => refused 2: rcfile line 1: wildcard not supported
-r, q:x => refused 2: rcfile line 1: wildcard not supported
rcfile maildir=x|
s:hello => refused 2: rcfile line 1: option not supported
-r, q:x => refused 2: rcfile line 1: option not supported
rcfile |mbox|
s:hello => refused 2: rcfile line 2: not option=value
rcfile mbox|
-r, q:x => refused 2: rcfile line 1: not option=value
rcfile base=~/m|
-r, q:x => refused 2: rcfile line 1: expansion not supported
rcfile |mformat=mh|
-r, q:x => refused 2: rcfile line 2: unknown format
rcfile {}
s:hello => refused 2: rcfile: mbox missing
-r, q:x => refused 2: rcfile: mbox missing
rcfile mbox=m.mbox|database=m.idx|mfolder=hits|
archives hello|
s:x => refused 4: archive 1: not an mbox
rcfile mbox=a.mbox:b.mbox|database=m.idx|mfolder=hits|
archives hello| & ^Subject: Hello||hi||
-r, s:hello/two => refused 4: archive 1: not an mbox
archives hello| & x|
-r, s:hello/two => refused 4: archive 1: not an mbox
archives ^Subject: Hello||hi|| & x|
-r, s:hello/two => refused 4: archive 2: not an mbox
archives {} & x|
-r, s:hello/two => refused 4: archive 2: not an mbox
";
