//! Boolean texts, and the queries that are read from them.

use crate::query_lines::is_reported;
use crate::reading::read_text;
use std::alloc::Global;

/// The number of rows of the table.
const COUNT: usize = 230;

/// The rows have the form `TEXT => QUERY`, with the query as [`is_reported`] reads it. The queries were found by a second
/// reader.
const BOOLEAN_TEXTS: &str = "\
subject:hello and not date:2003-02 => all(word s hello, not date 1044057600 1046476799)
(subject:ho or body:hi) hel* => all(either(word s ho, word b hi), prefix tchfsb hel)
id:<1@X> => word m 1@X
from:Exam* => prefix f exam
subject:a subject:b => query item 2: operator needed
a or => query item 3: term missing
(a => query item 3: bad parenthesis
((((((((((((((((((((((((((((((( => query item 31: too deep
subject:\"a => query item 1: phrase not supported
date:2003-02-30 => query item 1: bad date
* => any
not => query item 2: term missing
a b) c => query item 3: bad parenthesis
id:<> => query item 1: term missing
 => query item 1: no pattern
subject:xor => word s xor
XoR => query item 1: bad word
not xor => query item 2: bad word
subject:a x subject:b => query item 3: operator needed
subject:a not subject:b => all(word s a, not word s b)
not subject:a subject:b => all(not word s a, word s b)
subject:a not subject:b subject:c => query item 4: operator needed
subject:a (subject:b) c => all(word s a, word s b, word tchfsb c)
subject:a (b) subject:c => query item 5: operator needed
subject:a and subject:b => all(word s a, word s b)
subject:a or subject:b => either(word s a, word s b)
(subject:a) (subject:b) => all(word s a, word s b)
to:a not to:a (to:a) to:b => query item 7: operator needed
subject:a subject: => query item 2: operator needed
subject:a subject:\"b\" => query item 2: phrase not supported
subject:a q:x => query item 2: bad prefix
From:a => query item 1: bad prefix
from:a => word f a
FROM:a => query item 1: bad prefix
path:a => query item 1: bad prefix
date: => query item 1: term missing
date:2003-02 date:2003-02 => query item 2: operator needed
id:x => word m x
id:< => word m <
id:> => word m >
id:AbC => word m AbC
id:a b => all(word m a, word tchfsb b)
id:a:b => word m a:b
id:\" => query item 1: phrase not supported
:x => query item 1: bad prefix
a: => query item 1: bad prefix
a:b:c => query item 1: bad prefix
subject:a:b => query item 1: bad word
and => query item 1: term missing
or a => query item 1: term missing
a and => query item 3: term missing
a and and b => query item 3: term missing
a or or b => query item 3: term missing
a and or b => query item 3: term missing
not and => query item 2: term missing
not or a => query item 2: term missing
not not a => not not word tchfsb a
not ) => query item 2: bad parenthesis
) => query item 1: bad parenthesis
) a => query item 1: bad parenthesis
a) => query item 2: bad parenthesis
(a)) => query item 4: bad parenthesis
() => query item 2: term missing
( => query item 2: term missing
( ) => query item 2: term missing
(a or) => query item 4: term missing
(a and => query item 4: term missing
not ( => query item 3: term missing
not (a => query item 4: bad parenthesis
not (a) => not word tchfsb a
((a)) => word tchfsb a
(a)(b) => all(word tchfsb a, word tchfsb b)
a(b)c => all(word tchfsb a, word tchfsb b, word tchfsb c)
a AND b Or nOt c => either(all(word tchfsb a, word tchfsb b), not word tchfsb c)
a or b c => either(word tchfsb a, all(word tchfsb b, word tchfsb c))
a b or c => either(all(word tchfsb a, word tchfsb b), word tchfsb c)
a or b and c or d => either(word tchfsb a, all(word tchfsb b, word tchfsb c), word tchfsb d)
a and b or c and d => either(all(word tchfsb a, word tchfsb b), all(word tchfsb c, word tchfsb d))
(a or b) c => all(either(word tchfsb a, word tchfsb b), word tchfsb c)
not a b => all(not word tchfsb a, word tchfsb b)
not a or b => either(not word tchfsb a, word tchfsb b)
not (a b) => not all(word tchfsb a, word tchfsb b)
* * => all(any, any)
not * => not any
(*) => any
*a => query item 1: bad word
a* => prefix tchfsb a
a** => query item 1: bad word
subject:* => query item 1: bad word
subject:a* => prefix s a
subject:-* => prefix s -
subject:a- => query item 1: bad word
a-* => prefix tchfsb a-
bbbbbbbbbbbbbbbbbbbbbbbbbbbbbbbbbbbbbbbbbbbbbbbbbbbbbbbbbbbbbbbbbbbbbbbbbbbbbbbbbbbbbbbbbbbbbbbbbbbbbbbbbbbbbbbbbbbbb\
    bbbbbbbbbbb => word tchfsb bbbbbbbbbbbbbbbbbbbbbbbbbbbbbbbbbbbbbbbbbbbbbbbbbbbbbbbbbbbbbbbbbbbbbbbbbbbbbbbbbbbbbb\
    bbbbbbbbbbbbbbbbbbbbbbbbbbbbbbbbbbbbbbbbbb
bbbbbbbbbbbbbbbbbbbbbbbbbbbbbbbbbbbbbbbbbbbbbbbbbbbbbbbbbbbbbbbbbbbbbbbbbbbbbbbbbbbbbbbbbbbbbbbbbbbbbbbbbbbbbbbbbbbbb\
    bbbbbbbbbbbb => query item 1: bad word
bbbbbbbbbbbbbbbbbbbbbbbbbbbbbbbbbbbbbbbbbbbbbbbbbbbbbbbbbbbbbbbbbbbbbbbbbbbbbbbbbbbbbbbbbbbbbbbbbbbbbbbbbbbbbbbbbbbbb\
    bbbbbbbbbbb* => prefix tchfsb bbbbbbbbbbbbbbbbbbbbbbbbbbbbbbbbbbbbbbbbbbbbbbbbbbbbbbbbbbbbbbbbbbbbbbbbbbbbbbbbbbb\
    bbbbbbbbbbbbbbbbbbbbbbbbbbbbbbbbbbbbbbbbbbbbb
bbbbbbbbbbbbbbbbbbbbbbbbbbbbbbbbbbbbbbbbbbbbbbbbbbbbbbbbbbbbbbbbbbbbbbbbbbbbbbbbbbbbbbbbbbbbbbbbbbbbbbbbbbbbbbbbbbbbb\
    bbbbbbbbbbbb* => query item 1: bad word
\" => query item 1: phrase not supported
a \"b\" => query item 2: phrase not supported
(\" => query item 2: phrase not supported
not \" => query item 2: phrase not supported
near => word tchfsb near
adj => word tchfsb adj
a near b => all(word tchfsb a, word tchfsb near, word tchfsb b)
-a => query item 1: bad word
not not not not not not not not not not not not not not not not not not not not not not not not not not not not not \
    not a => not not not not not not not not not not not not not not not not not not not not not not not not not not \
    not not not not word tchfsb a
not not not not not not not not not not not not not not not not not not not not not not not not not not not not not \
    not not a => query item 31: too deep
((((((((((((((((((((((((((((((a)))))))))))))))))))))))))))))) => word tchfsb a
((((((((((((((((((((((((((((((a => query item 32: bad parenthesis
(((((((((((((((not not not not not not not not not not not not not not not a))))))))))))))) => not not not not not \
    not not not not not not not not not not word tchfsb a
(((((((((((((((not not not not not not not not not not not not not not not not a => query item 31: too deep
not not not not not not not not not not not not not not not not not not not not not not not not not not not not not \
    (a) => not not not not not not not not not not not not not not not not not not not not not not not not not not \
    not not not word tchfsb a
not not not not not not not not not not not not not not not not not not not not not not not not not not not not not \
    not (a) => query item 31: too deep
(a) (a) (a) ((((((((((((((((((((((((((((((b)))))))))))))))))))))))))))))) => all(word tchfsb a, word tchfsb a, word \
    tchfsb a, word tchfsb b)
not a not a not a not not not not not not not not not not not not not not not not not not not not not not not not \
    not not not not not not b => all(not word tchfsb a, not word tchfsb a, not word tchfsb a, not not not not not \
    not not not not not not not not not not not not not not not not not not not not not not not not not word tchfsb b)
((((((((((((((((((((((((((((((q:x)))))))))))))))))))))))))))))) => query item 31: bad prefix
((((((((((((((((((((((((((((((and => query item 31: term missing
(((((((((((((((((((((((((((((() => query item 31: term missing
(a or ((a or ((a or ((a or ((a or ((a or ((a or ((a or ((a or ((a or ((a or ((a or ((a or ((a or ((a or (b \
    c)))))))))))))))))))))))))))))) => either(word tchfsb a, either(word tchfsb a, either(word tchfsb a, either(word \
    tchfsb a, either(word tchfsb a, either(word tchfsb a, either(word tchfsb a, either(word tchfsb a, either(word \
    tchfsb a, either(word tchfsb a, either(word tchfsb a, either(word tchfsb a, either(word tchfsb a, either(word \
    tchfsb a, either(word tchfsb a, all(word tchfsb b, word tchfsb c))))))))))))))))
) to: to: id:x and not => query item 1: bad parenthesis
and a subject:c to: a id:x to:a id:x => query item 1: term missing
to:a or to: and => query item 3: term missing
id:x a not => query item 4: term missing
) ( a - * ( or not - => query item 1: bad parenthesis
a or - to:a * and => query item 3: bad word
to:a subject:c from:b => all(word tch a, word s c, word f b)
to: ) id:x to:a * => query item 1: term missing
) * => query item 1: bad parenthesis
to: or not => query item 1: term missing
to:a subject:c ( id:x or - to:a ( ) => query item 6: bad word
not not a subject:c subject:c subject:c => query item 5: operator needed
subject:c * not ) - from:b id:x - => query item 4: bad parenthesis
subject:c * - => query item 3: bad word
to:a and => query item 3: term missing
from:b and not from:b subject:c * * ( => query item 9: term missing
from:b to:a not subject:c to:a * not a => query item 5: operator needed
from:b - not subject:c not - => query item 2: bad word
( ( id:x or * ( => query item 7: term missing
to:a id:x - to:a => query item 3: bad word
a to: => query item 2: term missing
( * to: a ) id:x or to:a => query item 3: term missing
not id:x or ( subject:c ) id:x to: from:b => query item 8: term missing
not or * to: => query item 2: term missing
( * to:a => query item 4: bad parenthesis
) or not ( a subject:c and ) a => query item 1: bad parenthesis
and - to:a from:b * not - * - => query item 1: term missing
a id:x to: subject:c not and not to: => query item 3: term missing
or from:b ) subject:c => query item 1: term missing
id:x subject:c * not a not => query item 7: term missing
* - to: * to: * => query item 2: bad word
- not id:x or or => query item 1: bad word
subject:c - or - ( => query item 2: bad word
( not => query item 3: term missing
to:a ( * ( ) or => query item 5: term missing
) id:x ) - and subject:c => query item 1: bad parenthesis
- a from:b from:b a => query item 1: bad word
a a from:b to: and => query item 4: term missing
id:x ) from:b => query item 2: bad parenthesis
from:b to:a to: not to:a => query item 3: operator needed
a and - not => query item 3: bad word
not subject:c id:x to: not and to:a => query item 4: term missing
* ) from:b a ) subject:c ) => query item 2: bad parenthesis
* * from:b not - from:b not not => query item 5: bad word
) not => query item 1: bad parenthesis
- * ) to: not => query item 1: bad word
to: id:x to: a not and or a - => query item 1: term missing
a ) a to: from:b * * => query item 2: bad parenthesis
from:b subject:c id:x not from:b a => all(word f b, word s c, word m x, not word f b, word tchfsb a)
to:a to: subject:c or ) => query item 2: operator needed
not a ( a - to:a * => query item 5: bad word
id:x or to: * a id:x to:a subject:c => query item 3: term missing
not * * and => query item 5: term missing
) id:x from:b not => query item 1: bad parenthesis
id:x ( or subject:c ( subject:c => query item 3: term missing
* not ( - => query item 4: bad word
) * subject:c not id:x subject:c ) a => query item 1: bad parenthesis
not to: ) => query item 2: term missing
) ( - - and ) to: => query item 1: bad parenthesis
or to: or from:b id:x subject:c a id:x => query item 1: term missing
to:a a a id:x a - and from:b from:b => query item 6: bad word
to: * ( => query item 1: term missing
id:x not - a not ( id:x to:a => query item 3: bad word
from:b subject:c - => query item 3: bad word
subject:c a => all(word s c, word tchfsb a)
id:x ) => query item 2: bad parenthesis
to:a and or to: and - to:a - => query item 3: term missing
a or to:a to:a => query item 4: operator needed
not ( from:b not to: ) => query item 5: term missing
- and id:x and ( id:x => query item 1: bad word
( * from:b id:x ( a ) or and => query item 9: term missing
or * or * to: from:b * => query item 1: term missing
from:b and not to:a and => query item 6: term missing
- subject:c not subject:c from:b not => query item 1: bad word
from:b to:a a - subject:c id:x => query item 4: bad word
from:b not or => query item 3: term missing
( or and id:x id:x to:a subject:c id:x => query item 2: term missing
id:x ( - or ( not => query item 3: bad word
a from:b id:x or to: to:a * not and => query item 5: term missing
and id:x a and not not id:x subject:c => query item 1: term missing
- to: * not => query item 1: bad word
and * => query item 1: term missing
( or not not => query item 2: term missing
not and ) a => query item 2: term missing
* to: subject:c ) from:b to: => query item 2: term missing
) to: * subject:c not subject:c not ( id:x => query item 1: bad parenthesis
to:a or - ) id:x => query item 3: bad word
or ( subject:c to:a subject:c from:b and not not => query item 1: term missing
not to:a ) subject:c not from:b - => query item 3: bad parenthesis
a ) - => query item 2: bad parenthesis
) - to:a - => query item 1: bad parenthesis
to: id:x not ) - from:b ( not to:a => query item 1: term missing
or not * ) from:b id:x ( not not => query item 1: term missing
* and not - to:a => query item 4: bad word
a id:x to:a subject:c - ) => query item 5: bad word
or or to:a to: ) a => query item 1: term missing
not * from:b to: - a => query item 4: term missing
not to:a ) ) and * ) and - => query item 3: bad parenthesis
and or to:a ( => query item 1: term missing
* to: ) ) or ( and ) to:a => query item 2: term missing
id:x ) a not to:a subject:c and - => query item 2: bad parenthesis
id:x and not to: to:a => query item 4: term missing
a to:a * ( to: to:a * to: a => query item 5: term missing
- * subject:c ( not => query item 1: bad word
or a not - from:b ) subject:c => query item 1: term missing
or subject:c a id:x not not ) * => query item 1: term missing
not id:x subject:c not => query item 5: term missing
a * subject:c subject:c and => query item 4: operator needed
subject:c to: to: not or => query item 2: term missing
- - => query item 1: bad word
id:x ) and or from:b => query item 2: bad parenthesis
";

/// Whether the text of a row is read as the row's query. It is None if memory runs out.
fn row_is_reported(alloc: Global, row: &str) -> Option<bool> {
    let (text, reported) = row.split_once(" => ")?;
    Some(is_reported(&read_text(alloc, text)?, reported))
}

#[test]
fn boolean_texts_are_reported(rt: HostRuntime) {
    let mut count = 0usize;
    for row in BOOLEAN_TEXTS.lines() {
        assert!(rt; row_is_reported(rt.alloc(), row) == Some(true), "{row}");
        count = count.saturating_add(1);
    }
    assert_eq!(rt; count, COUNT);
}
