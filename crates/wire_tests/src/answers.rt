//! Bodies and heads written out by hand, and how many writes a reply takes.
use crate::expectations::{expect, expect_text};
use burn_core::State;
use exact_fraction::{
    Bytes, Fraction, Label, Leaf, Text, ZoneName, read_decimal, read_label, read_zone_name,
};
use notice_box::Notice;
use object_terms::{Kind, Rule};
use office_outside::{MemorySink, Plan};
use record_form::{
    BudgetRow, LimitName, Listed, OfficeStatus, Outcome, Refusal, Used, WindowRow, YamlWord,
};
use sample_book::{Exclusion, Row};
use slice_method::Amount;
use std::alloc::{AllocError, Global};
use std::mem;
use std::process::Abort;
use wire_replies::{Reply, bad_message, immediate_reply, render, write_reply};
use wire_terms::{Allow, NoRequest};
use yaml_terms::ProfileFault;

fn label(rt: &impl Abort, text: &str) -> Label {
    read_label(text.as_bytes()).expect(rt, "a label")
}

fn zone(rt: &impl Abort, text: &str) -> ZoneName {
    read_zone_name(text.as_bytes()).expect(rt, "a zone's name")
}

/// The status and the body of a reply as a line.
fn line_of(alloc: Global, reply: &Reply) -> Result<String, AllocError> {
    let (status, body) = match reply {
        Reply::Full { status, body, .. } => (*status, body.as_bytes()),
        Reply::Small { status, body, .. } => (*status, body.as_bytes()),
        Reply::NoMemory => (503, b"no memory".as_slice()),
    };
    let body = String::from_utf8_lossy(alloc, body)?;
    format!(in alloc; "{status} {body}\n")
}

/// Appends a line with the status and the body of an outcome's reply. The reply's memory goes with
/// the test's, and nothing ends early for want of memory: each end of it would be proved.
fn note(rt: &(impl AllocGlobal + Abort), lines: &mut String, outcome: Outcome) {
    let reply = render(rt.alloc(), outcome);
    let line = line_of(rt.alloc(), &reply).expect(rt, "memory");
    lines.push_str(line.as_str()).expect(rt, "memory");
    mem::forget(reply);
}

/// A line that begins with a blank goes on with the one before it.
const OUTCOMES: &str = r#"200 {"applied":2,"entry":0}
200 {"applied":5,"entry":null}
200 {"entry":2,"new":1,"newer":0,"repeated":0,"superseded":0}
200 {"entry":null,"new":0,"newer":0,"repeated":1,"superseded":0}
200 {"entry":4294967295,"new":4294967295,"newer":4294967295,
 "repeated":4294967295,"superseded":4294967295}
200 {"entry":6}
200 {"entry":null}
200 {"entry":3,"notices":2}
200 {"entries":2,"objects":[{"kind":"Service","name":"shop"},{"kind":"SLI","name":"shop-good"}]}
200 spec: {}
200 {"at":200,"budgets":[
 {"burn":"500/1","den":20,"error":"1/2","from":0,"num":10,"objective":0,"remaining":"-499/1"},
 {"burn":null,"den":0,"error":null,"from":7,"num":0,"objective":1,"remaining":null}],"entries":3}
200 {"at":200,"burn":"500/1","den":20,"entries":3,"num":10}
200 {"at":201,"burn":null,"den":0,"entries":3,"num":0}
200 {"entries":3,"intervals":[[1006,1061],[1106,1161]],"state":"no_data"}
200 {"entries":4,"intervals":[],"state":"breaching"}
200 {"entries":4,"notices":[
 {"at":1010,"number":1,"objective":0,"policy":"workbook-page","slo":"shop-slo","state":"quiet"}]}
200 {"entries":0,"notices":[]}
200 {"entries":4,"row":null}
200 {"entries":4,"row":{"amount":9990,"revision":1,"total":10000}}
200 {"entries":4,"row":{"amount":"0.5","revision":2,"total":null}}
200 {"entries":4,"row":{"amount":null,"revision":3,"total":null}}
200 {"entries":4,"exclusions":[{"from":100,"id":"m1","live":true,"slo":"shop-slo","to":101},
 {"from":7,"id":"a","live":false,"slo":"shop-slo","to":9}]}
200 {"entries":4,"zones":["Europe/Rome"]}
200 {"accepted":[1,2],"at":3,"bindings":[4,5],"bytes":[6,18446744073709551615],"cells":[7,8],
 "days":[9,10],"entries":11,"exclusions":[12,13],"last":null,"notices":[14,15],"objects":[16,17],
 "origin":18,"slis":[19,20],"slos":[21,22],"version":2,"zones":[23,24]}
200 {"at":9,"entries":4,"sums":[[9990,10000],[0,0]]}
200 {"at":9,"entries":4,"windows":[{"budgets":[],"from":0,"to":7},
 {"budgets":[],"from":7,"to":null}]}
500 {"end":2097152,"error":"clock_range","reading":2097152}
500 {"error":"disk_fault"}
507 {"error":"journal_full","needed":18446744073709551615,"tail":268435456}
503 no memory
"#;

/// Outcomes of changes.
fn note_changes(rt: &(impl AllocGlobal + Abort), lines: &mut String) {
    let defined = Outcome::Defined {
        applied: 2,
        entry: Some(0),
    };
    note(rt, lines, defined);
    let again = Outcome::Defined {
        applied: 5,
        entry: None,
    };
    note(rt, lines, again);
    note(rt, lines, sampled(Some(2), 1, 0));
    note(rt, lines, sampled(None, 0, 1));
    let most = Outcome::Sampled {
        entry: Some(u32::MAX),
        new: u32::MAX,
        newer: u32::MAX,
        repeated: u32::MAX,
        superseded: u32::MAX,
    };
    note(rt, lines, most);
    note(rt, lines, Outcome::Changed { entry: Some(6) });
    note(rt, lines, Outcome::Changed { entry: None });
    let ticked = Outcome::Ticked {
        entry: 3,
        notices: 2,
    };
    note(rt, lines, ticked);
}

/// What becomes of samples of which so many are new and so many repeated.
fn sampled(entry: Option<u32>, new: u32, repeated: u32) -> Outcome {
    Outcome::Sampled {
        entry,
        new,
        newer: 0,
        repeated,
        superseded: 0,
    }
}

fn note_objects(rt: &(impl AllocGlobal + Abort), lines: &mut String) {
    let mut objects = Listed::new(rt.alloc());
    let shop = (Kind::Service, label(rt, "shop"));
    objects.push(shop).expect(rt, "memory");
    let good = (Kind::Sli, label(rt, "shop-good"));
    objects.push(good).expect(rt, "memory");
    let list = Outcome::ObjectList {
        entries: 2,
        objects,
    };
    note(rt, lines, list);
    note(rt, lines, Outcome::ObjectText(spec(rt)));
}

/// The text of an object.
fn spec(rt: &(impl AllocGlobal + Abort)) -> Bytes {
    Bytes::from_vec(Vec::from_slice(rt.alloc(), b"spec: {}").expect(rt, "memory"))
}

/// Two budgets: one spent five hundred times over, one without events.
fn note_budgets(rt: &(impl AllocGlobal + Abort), lines: &mut String) {
    let mut budgets = Listed::new(rt.alloc());
    let spent = BudgetRow {
        burn: Some(Fraction::of(500, 1)),
        den: 20,
        error: Some(Fraction::of(1, 2)),
        from: 0,
        num: 10,
        objective: 0,
        remaining: Some(Fraction::of(-499, 1)),
    };
    budgets.push(spent).expect(rt, "memory");
    let unused = BudgetRow {
        burn: None,
        den: 0,
        error: None,
        from: 7,
        num: 0,
        objective: 1,
        remaining: None,
    };
    budgets.push(unused).expect(rt, "memory");
    let outcome = Outcome::Budgets {
        at: 200,
        budgets,
        entries: 3,
    };
    note(rt, lines, outcome);
}

fn note_burns(rt: &(impl AllocGlobal + Abort), lines: &mut String) {
    let some = Outcome::Burn {
        at: 200,
        burn: Some(Fraction::of(500, 1)),
        den: 20,
        entries: 3,
        num: 10,
    };
    note(rt, lines, some);
    let none = Outcome::Burn {
        at: 201,
        burn: None,
        den: 0,
        entries: 3,
        num: 0,
    };
    note(rt, lines, none);
}

fn note_timelines(rt: &(impl AllocGlobal + Abort), lines: &mut String) {
    let mut intervals = Listed::new(rt.alloc());
    intervals.push((1006, 1061)).expect(rt, "memory");
    intervals.push((1106, 1161)).expect(rt, "memory");
    let two = Outcome::Timeline {
        entries: 3,
        intervals,
        state: State::NoData,
    };
    note(rt, lines, two);
    let none = Outcome::Timeline {
        entries: 4,
        intervals: Listed::new(rt.alloc()),
        state: State::Breaching,
    };
    note(rt, lines, none);
}

/// No notices.
fn no_notices(rt: &impl AllocGlobal) -> Outcome {
    Outcome::Notices {
        entries: 0,
        notices: Listed::new(rt.alloc()),
    }
}

fn note_notices(rt: &(impl AllocGlobal + Abort), lines: &mut String) {
    let mut notices = Listed::new(rt.alloc());
    let notice = Notice {
        number: 1,
        at: 1010,
        slo: label(rt, "shop-slo"),
        objective: 0,
        policy: label(rt, "workbook-page"),
        state: State::Quiet,
    };
    notices.push(notice).expect(rt, "memory");
    let one = Outcome::Notices {
        entries: 4,
        notices,
    };
    note(rt, lines, one);
    note(rt, lines, no_notices(rt));
}

/// What the row of a cell comes to, with an amount or without a row.
fn note_row(rt: &(impl AllocGlobal + Abort), lines: &mut String, found: Option<(u32, Amount)>) {
    let row = match found {
        Some((revision, amount)) => Some(Row {
            sli: label(rt, "shop-good"),
            source: label(rt, "web"),
            minute: 7,
            revision,
            amount,
        }),
        None => None,
    };
    note(rt, lines, Outcome::Row { entries: 4, row });
}

fn note_rows(rt: &(impl AllocGlobal + Abort), lines: &mut String) {
    note_row(rt, lines, None);
    let counts = Amount::Counts {
        part: 9990,
        total: 10000,
    };
    note_row(rt, lines, Some((1, counts)));
    let half = read_decimal(b"0.5").expect(rt, "a decimal");
    note_row(rt, lines, Some((2, Amount::Value(half))));
    note_row(rt, lines, Some((3, Amount::Withdrawn)));
}

/// An exclusion of `shop-slo`.
fn exclusion(rt: &impl Abort, id: &str, from: u32, to: u32) -> Exclusion {
    Exclusion {
        id: label(rt, id),
        slo: label(rt, "shop-slo"),
        from,
        to,
    }
}

fn note_lists(rt: &(impl AllocGlobal + Abort), lines: &mut String) {
    let mut exclusions = Listed::new(rt.alloc());
    let live = (exclusion(rt, "m1", 100, 101), true);
    exclusions.push(live).expect(rt, "memory");
    let lifted = (exclusion(rt, "a", 7, 9), false);
    exclusions.push(lifted).expect(rt, "memory");
    let made = Outcome::Exclusions {
        entries: 4,
        exclusions,
    };
    note(rt, lines, made);
    let mut zones = Listed::new(rt.alloc());
    zones.push(zone(rt, "Europe/Rome")).expect(rt, "memory");
    note(rt, lines, Outcome::Zones { entries: 4, zones });
}

fn used(count: u64, limit: u64) -> Used {
    Used { count, limit }
}

fn note_status(rt: &(impl AllocGlobal + Abort), lines: &mut String) {
    let status = OfficeStatus {
        accepted: used(1, 2),
        at: 3,
        bindings: used(4, 5),
        bytes: used(6, u64::MAX),
        cells: used(7, 8),
        days: used(9, 10),
        entries: 11,
        exclusions: used(12, 13),
        last: None,
        notices: used(14, 15),
        objects: used(16, 17),
        origin: 18,
        slis: used(19, 20),
        slos: used(21, 22),
        version: 2,
        zones: used(23, 24),
    };
    note(rt, lines, Outcome::Status(status));
}

fn note_stretches(rt: &(impl AllocGlobal + Abort), lines: &mut String) {
    let mut sums = Listed::new(rt.alloc());
    let some = Leaf {
        num: 9990,
        den: 10000,
    };
    sums.push(some).expect(rt, "memory");
    sums.push(Leaf { num: 0, den: 0 }).expect(rt, "memory");
    let two = Outcome::Sums {
        at: 9,
        entries: 4,
        sums,
    };
    note(rt, lines, two);
    let mut windows = Listed::new(rt.alloc());
    windows.push(window(rt, 0, Some(7))).expect(rt, "memory");
    windows.push(window(rt, 7, None)).expect(rt, "memory");
    let both = Outcome::Windows {
        at: 9,
        entries: 4,
        windows,
    };
    note(rt, lines, both);
}

/// A window of an SLO without objectives.
fn window(rt: &impl AllocGlobal, from: u32, to: Option<u32>) -> WindowRow {
    WindowRow {
        budgets: Listed::new(rt.alloc()),
        from,
        to,
    }
}

fn note_faults(rt: &(impl AllocGlobal + Abort), lines: &mut String) {
    let range = Outcome::ClockRange {
        end: 2_097_152,
        reading: 2_097_152,
    };
    note(rt, lines, range);
    note(rt, lines, Outcome::DiskFault);
    let full = Outcome::JournalFull {
        needed: u64::MAX,
        tail: 268_435_456,
    };
    note(rt, lines, full);
    note(rt, lines, Outcome::NoMemory);
}

#[test]
fn outcomes_have_their_bodies(rt: HostRuntime) {
    let mut lines = String::new(rt.alloc());
    note_changes(&rt, &mut lines);
    note_objects(&rt, &mut lines);
    note_budgets(&rt, &mut lines);
    note_burns(&rt, &mut lines);
    note_timelines(&rt, &mut lines);
    note_notices(&rt, &mut lines);
    note_rows(&rt, &mut lines);
    note_lists(&rt, &mut lines);
    note_status(&rt, &mut lines);
    note_stretches(&rt, &mut lines);
    note_faults(&rt, &mut lines);
    let wanted = OUTCOMES
        .replace(rt.alloc(), "\n ", "")
        .expect(&rt, "memory");
    expect_text(&rt, "outcomes", &lines, &wanted);
}

const REFUSALS: &str = r#"507 {"error":"limit","which":"rows"}
422 {"error":"yaml","line":33,"which":"too_deep"}
422 {"error":"yaml","line":0,"which":"not_utf8"}
422 {"document":3,"error":"object","field":"a\"\n","rule":"unknown_field"}
422 {"error":"reserved","name":"workbook-page"}
422 {"error":"reserved","name":"UTC"}
422 {"error":"duplicate","kind":"Service","name":"shop"}
422 {"error":"unresolved","from_kind":"SLO","from_name":"shop-slo","kind":"Service","name":"shop"}
422 {"error":"unresolved","kind":"SLO","name":"shop-slo"}
422 {"error":"needs_op","objective":0,"slo":"shop-slo"}
422 {"error":"unknown_zone","name":"Europe/Rome"}
409 {"error":"has_samples","minute":999,"name":"shop-good","source":"web"}
404 {"error":"not_found"}
409 {"by_kind":"SLO","by_name":"shop-slo","error":"in_use"}
409 {"error":"zone_differs","name":"Europe/Rome"}
422 {"error":"bad_zone","name":"Europe/Rome"}
422 {"error":"unknown_sli","name":"nope","row":1}
422 {"error":"version","row":3}
422 {"error":"wrong_kind","row":1}
422 {"error":"counts","row":2}
422 {"error":"early","minute":9,"origin":10,"row":1}
422 {"error":"open_minute","minute":1000,"moment":1000,"row":1}
409 {"amount":"9990,10000","error":"conflict","revision":1,"row":2}
409 {"amount":"0.5","error":"conflict","revision":3,"row":4}
409 {"amount":"withdrawn","error":"conflict","revision":2,"row":1}
409 {"error":"withdrawn","id":"m1"}
409 {"error":"conflict","from":100,"slo":"shop-slo","to":101}
422 {"error":"range"}
422 {"error":"unknown_notice","made":4,"number":5}
404 {"at":99,"error":"no_window"}
"#;

fn refuse(rt: &(impl AllocGlobal + Abort), lines: &mut String, refusal: Refusal) {
    note(rt, lines, Outcome::Refused(refusal));
}

fn refuse_documents(rt: &(impl AllocGlobal + Abort), lines: &mut String) {
    let which = LimitName::Rows;
    refuse(rt, lines, Refusal::Limit { which });
    let deep = YamlWord::Form(ProfileFault::TooDeep);
    refuse_yaml(rt, lines, 33, deep);
    refuse_yaml(rt, lines, 0, YamlWord::NotUtf8);
    let field = String::from_str(rt.alloc(), "a\"\n").expect(rt, "memory");
    let object = Refusal::Object {
        document: 3,
        field: Text::from_string(field),
        rule: Rule::UnknownField,
    };
    refuse(rt, lines, object);
}

fn refuse_yaml(rt: &(impl AllocGlobal + Abort), lines: &mut String, line: u32, which: YamlWord) {
    refuse(rt, lines, Refusal::Yaml { line, which });
}

/// Refusals of a catalog: reserved names, and what objects refer to.
fn refuse_objects(rt: &(impl AllocGlobal + Abort), lines: &mut String) {
    let name = label(rt, "workbook-page");
    refuse(rt, lines, Refusal::ReservedPolicy { name });
    let name = zone(rt, "UTC");
    refuse(rt, lines, Refusal::ReservedZone { name });
    let (kind, name) = (Kind::Service, label(rt, "shop"));
    refuse(rt, lines, Refusal::Duplicate { kind, name });
    let slo = label(rt, "shop-slo");
    let unresolved = Refusal::Unresolved {
        from_kind: Kind::Slo,
        from_name: slo,
        kind,
        name,
    };
    refuse(rt, lines, unresolved);
    let kind = Kind::Slo;
    refuse(rt, lines, Refusal::NoSuchSlo { kind, name: slo });
    refuse(rt, lines, Refusal::NeedsOp { objective: 0, slo });
}

/// Refusals by what is there.
fn refuse_by_what_is_there(rt: &(impl AllocGlobal + Abort), lines: &mut String) {
    let name = zone(rt, "Europe/Rome");
    refuse(rt, lines, Refusal::UnknownZone { name });
    let sampled = Refusal::HasSamples {
        minute: 999,
        name: label(rt, "shop-good"),
        source: label(rt, "web"),
    };
    refuse(rt, lines, sampled);
    refuse(rt, lines, Refusal::NotFound);
    let used = Refusal::InUse {
        by_kind: Kind::Slo,
        by_name: label(rt, "shop-slo"),
    };
    refuse(rt, lines, used);
    refuse(rt, lines, Refusal::ZoneDiffers { name });
    refuse(rt, lines, Refusal::BadZone { name });
}

fn refuse_rows(rt: &(impl AllocGlobal + Abort), lines: &mut String) {
    let name = label(rt, "nope");
    refuse(rt, lines, Refusal::UnknownSli { name, row: 1 });
    refuse(rt, lines, Refusal::Version { row: 3 });
    refuse(rt, lines, Refusal::WrongKind { row: 1 });
    refuse(rt, lines, Refusal::Counts { row: 2 });
    let early = Refusal::Early {
        minute: 9,
        origin: 10,
        row: 1,
    };
    refuse(rt, lines, early);
    let open = Refusal::OpenMinute {
        minute: 1_000,
        moment: 1_000,
        row: 1,
    };
    refuse(rt, lines, open);
}

/// Refusals by the amount that is kept.
fn refuse_by_amounts(rt: &(impl AllocGlobal + Abort), lines: &mut String) {
    let counts = Amount::Counts {
        part: 9_990,
        total: 10_000,
    };
    refuse_conflict(rt, lines, counts, 1, 2);
    let half = read_decimal(b"0.50").ok().expect(rt, "a decimal");
    refuse_conflict(rt, lines, Amount::Value(half), 3, 4);
    refuse_conflict(rt, lines, Amount::Withdrawn, 2, 1);
}

fn refuse_conflict(
    rt: &(impl AllocGlobal + Abort),
    lines: &mut String,
    amount: Amount,
    revision: u32,
    row: u32,
) {
    let conflict = Refusal::RowConflict {
        amount,
        revision,
        row,
    };
    refuse(rt, lines, conflict);
}

fn refuse_the_rest(rt: &(impl AllocGlobal + Abort), lines: &mut String) {
    let id = label(rt, "m1");
    refuse(rt, lines, Refusal::Withdrawn { id });
    let conflict = Refusal::ExclusionConflict {
        from: 100,
        slo: label(rt, "shop-slo"),
        to: 101,
    };
    refuse(rt, lines, conflict);
    refuse(rt, lines, Refusal::Range);
    refuse(rt, lines, Refusal::UnknownNotice { made: 4, number: 5 });
    refuse(rt, lines, Refusal::NoWindow { at: 99 });
}

#[test]
fn refusals_have_their_bodies(rt: HostRuntime) {
    let mut lines = String::new(rt.alloc());
    refuse_documents(&rt, &mut lines);
    refuse_objects(&rt, &mut lines);
    refuse_by_what_is_there(&rt, &mut lines);
    refuse_rows(&rt, &mut lines);
    refuse_by_amounts(&rt, &mut lines);
    refuse_the_rest(&rt, &mut lines);
    expect_text(&rt, "refusals", &lines, REFUSALS);
}

const HEADS: &str = "\
HTTP/1.1 200 OK\r\nContent-Type: application/json\r\n\
Content-Length: 26\r\nConnection: keep-alive\r\n\r\n{\"entries\":0,\"notices\":[]}\
HTTP/1.1 200 OK\r\nContent-Type: application/yaml\r\n\
Content-Length: 8\r\nConnection: close\r\n\r\nspec: {}\
HTTP/1.1 200 OK\r\nContent-Type: application/octet-stream\r\n\
Content-Length: 8\r\nConnection: keep-alive\r\n\r\nspec: {}\
HTTP/1.1 404 Not Found\r\nContent-Type: application/json\r\n\
Content-Length: 21\r\nConnection: keep-alive\r\n\r\n{\"error\":\"not_found\"}\
HTTP/1.1 405 Method Not Allowed\r\nContent-Type: application/json\r\n\
Content-Length: 18\r\nAllow: PUT, DELETE\r\nConnection: keep-alive\r\n\r\n{\"error\":\"method\"}\
HTTP/1.1 400 Bad Request\r\nContent-Type: application/json\r\n\
Content-Length: 27\r\nConnection: keep-alive\r\n\r\n{\"error\":\"body\",\"record\":7}\
HTTP/1.1 431 Request Header Fields Too Large\r\nContent-Type: application/json\r\n\
Content-Length: 19\r\nConnection: close\r\n\r\n{\"error\":\"message\"}\
HTTP/1.1 503 Service Unavailable\r\nContent-Type: application/json\r\n\
Content-Length: 21\r\nConnection: close\r\n\r\n{\"error\":\"no_memory\"}";

/// Writes a reply to an output that takes all.
fn write(rt: &impl Abort, output: &mut MemorySink, reply: Reply, last: bool) {
    let done = write_reply(&reply, last, output).is_ok();
    mem::forget(reply);
    expect(rt, done, "a reply is written");
}

#[test]
fn replies_are_written_at_once(rt: HostRuntime) {
    let mut output = MemorySink::new(rt.alloc(), Plan::smooth(rt.alloc()));
    write(&rt, &mut output, render(rt.alloc(), no_notices(&rt)), false);
    let text = Outcome::ObjectText(spec(&rt));
    write(&rt, &mut output, render(rt.alloc(), text), true);
    let feed = Outcome::Feed(spec(&rt));
    write(&rt, &mut output, render(rt.alloc(), feed), false);
    write(
        &rt,
        &mut output,
        immediate_reply(NoRequest::NotFound),
        false,
    );
    let method = immediate_reply(NoRequest::Method(Allow::PutDelete));
    write(&rt, &mut output, method, false);
    write(
        &rt,
        &mut output,
        immediate_reply(NoRequest::Record(7)),
        false,
    );
    write(&rt, &mut output, bad_message(431), true);
    write(&rt, &mut output, Reply::NoMemory, true);
    expect(&rt, output.bytes() == HEADS.as_bytes(), HEADS);
    expect(&rt, output.plan().calls() == 8, "a call for each reply");
}

/// The reply to an object of so many bytes, over a sink whose second write fails.
fn write_text(rt: &(impl AllocGlobal + Abort), size: usize) -> (bool, usize) {
    let text = vec![in rt.alloc(); b'#'; size].expect(rt, "memory");
    let outcome = Outcome::ObjectText(Bytes::from_vec(text));
    let failing = vec![in rt.alloc(); 1].expect(rt, "memory");
    let mut output = MemorySink::new(rt.alloc(), Plan::new(failing, Vec::new(rt.alloc())));
    let reply = render(rt.alloc(), outcome);
    let done = write_reply(&reply, false, &mut output).is_ok();
    mem::forget(reply);
    (done, output.bytes().len())
}

#[test]
fn longer_replies_take_two_writes(rt: HostRuntime) {
    // The head has 97 bytes.
    expect(&rt, write_text(&rt, 3_999) == (true, 4_096), "one write");
    expect(&rt, write_text(&rt, 4_000) == (false, 97), "two writes");
}
