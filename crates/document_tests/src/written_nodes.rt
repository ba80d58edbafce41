//! YAML nodes and their canonical writings. Each expected text was written by hand, and is read
//! again.

use crate::documents::documents_of;
use crate::expectations::{expect, expect_text};
use crate::tables::{Reading, expect_table};
use std::alloc::Global;
use std::process::Abort;
use yaml_writing::write_node;

/// The writing of a text's documents behind so many spaces.
fn writing_of(rt: &impl Abort, alloc: Global, text: &str, indent: u32) -> Vec<u8> {
    let nodes = documents_of(rt, alloc, text);
    let mut out = Vec::new(alloc);
    for node in nodes.as_slice() {
        write_node(&mut out, node, indent).expect(rt, "memory");
    }
    out
}

/// The documents of a text, as they are shown.
fn documents_shown(rt: &impl Abort, alloc: Global, text: &str) -> String {
    let nodes = documents_of(rt, alloc, text);
    format!(in alloc; "{nodes:?}").expect(rt, "memory")
}

/// The documents of a text have this writing behind so many spaces, and are read back from it.
pub(crate) fn expect_writing(
    rt: &impl Abort,
    alloc: Global,
    indent: u32,
    text: &str,
    wanted: &str,
) {
    let found = writing_of(rt, alloc, text, indent);
    expect(rt, found.as_slice() == wanted.as_bytes(), text);
    let again = documents_shown(rt, alloc, wanted);
    expect_text(rt, text, &again, &documents_shown(rt, alloc, text));
}

/// Texts, and what their documents are written as.
const WRITINGS: &str = "a: b
c: 'd'
=> \"a\": b
\"c\": \"d\"
====
a: {}
b: [ ]
=> \"a\": {}
\"b\": []
====
a:
    b:
          c: d
    e: f
g: h
=> \"a\":
  \"b\":
    \"c\": d
  \"e\": f
\"g\": h
====
a:
- b: c
  d: e
-
  f: g
=> \"a\":
  - \"b\": c
    \"d\": e
  - \"f\": g
====
- [a, 'b']
- - - c
    - d
  - {}
- []
=> - - a
  - \"b\"
- - - c
    - d
  - {}
- []
====
- a:
   b: c
   d:
   - e
- f
=> - \"a\":
    \"b\": c
    \"d\":
      - e
- f
====
a: \"x\\n\\t\\\\\\\"y\"
=> \"a\": \"x\\n\\t\\\\\\\"y\"
====
|
x
  y
=> \"x\\n  y\\n\"
====
'it''s \"x\"\\': 1
=> \"it's \\\"x\\\"\\\\\": 1
====
a: ~ # none
b:
c: ''
=> \"a\": ~
\"b\":
\"c\": \"\"
====
a:
-
-\u{20}
- ''
=> \"a\":
  -
  -
  - \"\"
====
a: b\tc
d: -e
f: g:h
=> \"a\": b\tc
\"d\": -e
\"f\": g:h
====
- é: 'ü'
=> - \"é\": \"ü\"
";

/// A text whose document is written behind three spaces.
const INDENTED_WRITING: &str = "a:
 - b:
   - c
   d: e
f:
  g:
=>    \"a\":
     - \"b\":
         - c
       \"d\": e
   \"f\":
     \"g\":
";

#[test]
fn nodes_are_written_canonically(rt: HostRuntime) {
    expect_table(&rt, rt.alloc(), &Reading::Nodes, WRITINGS);
    expect_table(&rt, rt.alloc(), &Reading::IndentedNodes, INDENTED_WRITING);
}
