//! Examples of YAML 1.2.2, texts for each sentence of the profile, and a map with many keys.

use crate::expectations::expect;
use crate::yaml_tables::{answer, expect_read};
use std::alloc::{AllocError, Global};
use yaml_subset::read_documents;

/// Examples of YAML 1.2.2 that the profile takes, with the content that the specification gives
/// them: 2.1 to 2.5, 2.7 to 2.9, 2.12, 2.16, 2.19 to 2.22, 5.12, 6.1 up to its flow list, two lines
/// of 6.3, 6.9 to 6.11, 7.7, 7.10 outside lists and inside one, 7.13, 8.2 up to its digit, 8.4 to
/// 8.7, 8.8 (whose line of three spaces the profile takes as blank), 8.9, 8.14 to 8.16, the first
/// two items of 8.20, 9.3 from its second document on, and 9.6 without its directive (the profile
/// passes over the empty document).
const EXAMPLES: &str = "\
- Mark McGwire¶- Sammy Sosa¶- Ken Griffey¶ => [Mark McGwire;Sammy Sosa;Ken Griffey;].
hr:  65    # Home runs¶avg: 0.278 # Batting average¶\
rbi: 147   # Runs Batted In¶ => {hr=65;avg=0.278;rbi=147;}.
american:¶- Boston Red Sox¶- Detroit Tigers¶- New York Yankees¶national:¶- New York Mets¶\
- Chicago Cubs¶- Atlanta Braves¶ => {american=[Boston Red Sox;Detroit Tigers;New York Yankees;];\
national=[New York Mets;Chicago Cubs;Atlanta Braves;];}.
-¶  name: Mark McGwire¶  hr:   65¶  avg:  0.278¶\
-¶  name: Sammy Sosa¶  hr:   63¶  avg:  0.288¶ => [{name=Mark McGwire;hr=65;avg=0.278;};\
{name=Sammy Sosa;hr=63;avg=0.288;};].
- [name        , hr, avg  ]¶- [Mark McGwire, 65, 0.278]¶\
- [Sammy Sosa  , 63, 0.288]¶ => [[name;hr;avg;];[Mark McGwire;65;0.278;];[Sammy Sosa;63;0.288;];].
# Ranking of 1998 home runs¶---¶- Mark McGwire¶- Sammy Sosa¶- Ken Griffey¶¶# Team ranking¶---¶\
- Chicago Cubs¶- St Louis Cardinals¶ => [Mark McGwire;Sammy Sosa;Ken Griffey;].[Chicago Cubs;\
St Louis Cardinals;].
---¶time: 20:03:20¶player: Sammy Sosa¶action: strike (miss)¶...¶---¶time: 20:03:47¶\
player: Sammy Sosa¶action: grand slam¶\
...¶ => {time=20:03:20;player=Sammy Sosa;action=strike (miss);}.{time=20:03:47;player=Sammy Sosa;\
action=grand slam;}.
---¶hr: # 1998 hr ranking¶- Mark McGwire¶- Sammy Sosa¶# 1998 rbi ranking¶rbi:¶- Sammy Sosa¶\
- Ken Griffey¶ => {hr=[Mark McGwire;Sammy Sosa;];rbi=[Sammy Sosa;Ken Griffey;];}.
---¶# Products purchased¶- item    : Super Hoop¶  quantity: 1¶\
- item    : Basketball¶  quantity: 4¶\
- item    : Big Shoes¶  quantity: 1¶ => [{item=Super Hoop;quantity=1;};{item=Basketball;\
quantity=4;};{item=Big Shoes;quantity=1;};].
name: Mark McGwire¶accomplishment: >¶  Mark set a major league¶  home run record in 1998.¶\
stats: |¶  65 Home Runs¶  0.278 Batting Average¶ => {name=Mark McGwire;\
accomplishment=\"Mark set a major league home run record in 1998.\\n\";\
stats=\"65 Home Runs\\n0.278 Batting Average\\n\";}.
canonical: 12345¶decimal: +12,345¶octal: 0o14¶\
hexadecimal: 0xC¶ => {canonical=12345;decimal=+12,345;octal=0o14;hexadecimal=0xC;}.
canonical: 1.23015e+3¶exponential: 12.3015e+02¶fixed: 1230.15¶negative infinity: -.inf¶\
not a number: .nan¶ => {canonical=1.23015e+3;exponential=12.3015e+02;fixed=1230.15;\
negative infinity=-.inf;not a number=.nan;}.
null:¶booleans: [ true, false ]¶\
string: '012345'¶ => {null=;booleans=[true;false;];string=\"012345\";}.
canonical: 2001-12-15T02:59:43.1Z¶iso8601: 2001-12-14t21:59:43.10-05:00¶\
spaced: 2001-12-14 21:59:43.10 -5¶\
date: 2002-12-14¶ => {canonical=2001-12-15T02:59:43.1Z;iso8601=2001-12-14t21:59:43.10-05:00;\
spaced=2001-12-14 21:59:43.10 -5;date=2002-12-14;}.
# Tabs and spaces¶quoted: \"Quoted \t\"¶\
block:\t|¶  void main() {¶  \tprintf(\"Hello, world!\\n\");¶  }¶ => {quoted=\"Quoted \\t\";\
block=\"void main() {\\n\\tprintf(\"Hello, world!\\n\");\\n}\\n\";}.
  # Leading comment line spaces are¶  # neither content nor indentation.¶    ¶\
Not indented:¶ By one space: |¶    By four¶      spaces¶ => {Not indented={By one space=\
\"By four\\n  spaces\\n\";};}.
- foo:\t bar¶- - baz¶ => [{foo=bar;};[baz;];].
key:    # Comment¶  value¶ => {key=value;}.
  # Comment¶   ¶¶ =>\u{20}
key:    # Comment¶        # lines¶  value¶¶ => {key=value;}.
 'here''s to \"quotes\"' => \"here's to \"quotes\"\".
# Outside flow collection:¶- ::vector¶- \": - ()\"¶- Up, up, and away!¶- -123¶\
- https://example.com/foo#bar¶ => [::vector;\": - ()\";Up, up, and away!;-123;\
https://example.com/foo#bar;].
- [ ::vector, \": - ()\", \"Up, up and away!\", -123, https://example.com/foo#bar ]¶ =\
> [[::vector;\": - ()\";\"Up, up and away!\";-123;https://example.com/foo#bar;];].
- [ one, two, ]¶- [three ,four]¶ => [[one;two;];[three;four;];].
- |¶ detected¶- >¶ ¶  ¶  # detected¶ => [\"detected\\n\";\"\\n\\n# detected\\n\";].
strip: |-¶  text¶clip: |¶  text¶\
keep: |+¶  text¶ => {strip=\"text\";clip=\"text\\n\";keep=\"text\\n\";}.
 # Strip¶  # Comments:¶strip: |-¶  # text¶  ¶ # Clip¶  # comments:¶¶\
clip: |¶  # text¶ ¶ # Keep¶  # comments:¶¶keep: |+¶  # text¶\
¶ # Trail¶  # comments.¶ => {strip=\"# text\";clip=\"# text\\n\";keep=\"# text\\n\\n\";}.
strip: >-¶¶clip: >¶¶keep: |+¶¶ => {strip=\"\";clip=\"\";keep=\"\\n\";}.
|¶ literal¶ \ttext¶¶¶ => \"literal\\n\\ttext\\n\".
|¶ ¶  ¶  literal¶   ¶  ¶  text¶¶ # Comment¶ => \"\\n\\nliteral\\n\\n\\ntext\\n\".
>¶ folded¶ text¶¶¶ => \"folded text\\n\".
block sequence:¶  - one¶  - two : three¶ => {block sequence=[one;{two=three;};];}.
- # Empty¶- |¶ block node¶- - one # Compact¶  - two # sequence¶\
- one: two # Compact mapping¶ => [;\"block node\\n\";[one;two;];{one=two;};].
block mapping:¶ key: value¶ => {block mapping={key=value;};}.
-¶  \"flow in block\"¶- >¶ Block scalar¶ => [\"flow in block\";\"Block scalar\\n\";].
...¶# No document¶...¶|¶\
%!PS-Adobe-2.0 # Not the first line¶ => \"%!PS-Adobe-2.0 # Not the first line\\n\".
Document¶---¶# Empty¶...¶---¶matches %: 20¶ => Document.{matches %=20;}.";

#[test]
fn examples_of_the_specification(rt: HostRuntime) {
    expect_read(&rt, rt.alloc(), EXAMPLES);
}

/// Examples of YAML 1.2.2 with a construct that the profile leaves out: 2.6, 2.10, 2.11, 2.13, 2.17
/// twice, 2.18 twice, 2.23, 5.10 twice, 5.14, 6.2, 6.3, 7.8, 8.2, 8.3, 8.10, 8.18 to 8.20, 9.2 to
/// 9.4 and 9.6.
const EXAMPLES_LEFT_OUT: &str = "Mark McGwire: {hr: 65, avg: 0.278}¶ => 1 LeftOut
---¶hr:¶- Mark McGwire¶# Following node labeled SS¶- &SS Sammy Sosa¶rbi:¶\
- *SS # Subsequent occurrence¶- Ken Griffey¶ => 5 LeftOut
? - Detroit Tigers¶  - Chicago cubs¶: - 2001-07-23¶ => 1 LeftOut
# ASCII Art¶--- |¶  \\//||\\/||¶  // ||  ||__¶ => 2 LeftOut
unicode: \"Sosa did fine.\\u263A\"¶ => 1 Escape
control: \"\\b1998\\t1999\\t2000\\n\"¶ => 1 Escape
plain:¶  This unquoted scalar¶  spans many lines.¶ => 3 Indent
quoted: \"So does this¶  quoted scalar.\\n\"¶ => 1 Quote
---¶not-date: !!str 2002-04-28¶ => 2 LeftOut
commercial-at: @text¶ => 1 LeftOut
grave-accent: `text¶ => 1 LeftOut
Bad escapes:¶  \"\\c¶  \\xq-\"¶ => 2 Quote
? a¶: -\tb¶  -  -\tc¶     - d¶ => 1 LeftOut
- foo:\t bar¶- - baz¶  -\tbaz¶ => 3 Tab
'implicit block key' : [¶  'implicit flow key' : value,¶ ]¶ => 1 FlowForm
- |¶ detected¶- >¶ ¶  ¶  # detected¶- |1¶  explicit¶ => 7 LeftOut
- >¶  text¶ text¶ => 3 Indent
>¶¶ folded¶ line¶¶ next¶ line¶   * bullet¶ => 8 LeftOut
plain key: in-line value¶: # Both empty¶\"quoted key\":¶- entry¶ => 2 Colon
- sun: yellow¶- ? earth: blue¶  : moon: white¶ => 2 LeftOut
-¶  \"flow in block\"¶- >¶ Block scalar¶- !!map # Block collection¶  foo : bar¶ => 5 LeftOut
%YAML 1.2¶---¶Document¶ => 1 LeftOut
Bare¶document¶ => 2 Indent
---¶{ matches¶% : 20 }¶ => 2 LeftOut
Document¶---¶# Empty¶...¶%YAML 1.2¶---¶matches %: 20¶ => 5 LeftOut";

#[test]
fn examples_with_what_is_left_out(rt: HostRuntime) {
    expect_read(&rt, rt.alloc(), EXAMPLES_LEFT_OUT);
}

/// More texts of the profile.
const PROFILE_TEXTS: &str = "a: 1¶... # end¶b: 2¶ => {a=1;}.{b=2;}.
a: | # c¶  x¶b: >+\t# d¶  y¶ => {a=\"x\\n\";b=\"y\\n\";}.
'a': \"b\" # c¶\"d\" : '' # e¶ => {a=\"b\";d=\"\";}.
a: b\t# c¶d: e\tf¶ => {a=b;d=e\\tf;}.
a: b# c¶ => {a=b# c;}.
>-¶x¶y => \"x y\".
>+¶x¶¶ => \"x\\n\\n\".
|¶x¶...¶ => \"x\\n\".
|-¶x¶... # c¶|+¶y¶¶ => \"x\".\"y\\n\\n\".
a: |- => {a=\"\";}.
a: |\r¶  x\r¶\r¶  y\r¶ => {a=\"x\\n\\ny\\n\";}.
\u{feff}# c\r¶--- # d\r¶a: 1\r¶...\r¶ => {a=1;}.
a:¶  - b¶  -  c¶d:¶- e¶ => {a=[b;c;];d=[e;];}.
-  - a¶   - b¶- -¶ => [[a;b;];[;];].
'a: b': c¶\"d\\\"e\" : f¶ => {a: b=c;d\"e=f;}.
[\"a\\tb\", 'c''d', e f]¶ => [\"a\\tb\";\"c'd\";e f;].
a:¶  'b'¶c:¶¶  # d¶¶  e: 1¶ => {a=\"b\";c={e=1;};}.
[] => [].
{} # c => {}.
a:¶  b: 1¶c:¶  b: 2¶ => {a={b=1;};c={b=2;};}.
- a: 1¶- a: 2¶ => [{a=1;};{a=2;};].
- |¶  ¶ text¶ => [\"\\ntext\\n\";].
- - - - - - - - - - - - - - - - - - - - - - - - - - - - - - - []¶ =\
> [[[[[[[[[[[[[[[[[[[[[[[[[[[[[[[[];];];];];];];];];];];];];];];];];];];];];];];];];];];];];];];].
- - - - - - - - - - - - - - - - - - - - - - - - - - - - - - - - a¶ =\
> [[[[[[[[[[[[[[[[[[[[[[[[[[[[[[[[a;];];];];];];];];];];];];];];];];];];];];];];];];];];];];];];\
];].";

#[test]
fn more_texts_of_the_profile(rt: HostRuntime) {
    expect_read(&rt, rt.alloc(), PROFILE_TEXTS);
}

/// More texts that are none. From the fifteenth on two rows are broken, and the first of the table
/// of rows is named.
const OTHER_TEXTS: &str = "# \u{1}¶ => 1 Control
a: 1\r => 1 Control
  \t a: 1¶ => 1 Tab
a:¶\tb: 1¶ => 2 Tab
... a¶ => 1 LeftOut
a: [[]]¶ => 1 LeftOut
a: \"b\"# c¶ => 1 Quote
[\"\\e\"]¶ => 1 Escape
a: [b]# c¶ => 1 FlowForm
a: [,]¶ => 1 FlowForm
- a: 1¶  a: 2¶ => 2 DuplicateKey
a:¶  b: 1¶  c: 2¶  'b': 3¶ => 4 DuplicateKey
- - - - - - - - - - - - - - - - - - - - - - - - - - - - - - - - []¶ => 1 TooDeep
- - - - - - - - - - - - - - - - - - - - - - - - - - - - - - - - a: b¶ => 1 TooDeep
\tb: \u{1}¶ => 1 Control
-\t&a¶ => 1 Tab
a: &b c: d¶ => 1 LeftOut
a: 1¶ b: c: d¶ => 2 Indent
a: \"\\q\" b¶ => 1 Quote
a: [b,, \"\\q\"]¶ => 1 Escape
a: [b: c], d: e¶ => 1 FlowForm
a: 1¶a: b: c¶ => 2 Colon";

#[test]
fn more_texts_that_are_none(rt: HostRuntime) {
    expect_read(&rt, rt.alloc(), OTHER_TEXTS);
}

/// How many keys a large map has, and the step from one to the next. Both are primes, so the keys
/// are all different, and come in no order.
const KEYS: u32 = 10_007;

const STEP: u32 = 7_919;

/// A large map, and one more line.
fn large_map(alloc: Global, last: &str) -> Result<String, AllocError> {
    let mut text = String::new(alloc);
    for number in 0..KEYS {
        let key = number.wrapping_mul(STEP) % KEYS;
        let line = format!(in alloc; "k{key}: 1\n")?;
        text.push_str(&line)?;
    }
    text.push_str(last)?;
    Ok(text)
}

/// Whether a large map holds a key.
fn is_key(alloc: Global, key: &str) -> Result<bool, AllocError> {
    let last = format!(in alloc; "{key}: 2\n")?;
    let text = large_map(alloc, &last)?;
    Ok(answer(alloc, &text)?.as_str() == "10008 DuplicateKey")
}

/// A key is found again wherever in a large map it stands: first, second, in the middle, or last
/// and still open.
#[test]
fn keys_of_a_large_map(rt: HostRuntime) {
    for key in "k0 k7919 k1 'k10006' k2088".split(" ") {
        expect(&rt, is_key(rt.alloc(), key) == Ok(true), key);
    }
    let text = large_map(rt.alloc(), "k10007: 2\n").expect(&rt, "memory");
    expect(
        &rt,
        read_documents(rt.alloc(), text.as_bytes()).is_ok(),
        "another key",
    );
}
