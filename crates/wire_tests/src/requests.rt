//! What messages stand for: each route, each refusal, queries and bodies. A table is one text,
//! since a proof of a test costs by its literals: a line has the request line, the body and what is
//! wanted, with ` ~ ` between them.
use crate::expectations::expect_text;
use exact_fraction::Bytes;
use message_heads::{Heard, read_request};
use record_form::{Command, Query, Request, Rows};
use sample_book::Exclusion;
use slice_method::Amount;
use std::alloc::{AllocError, Global};
use std::process::Abort;
use std::{mem, str};
use wire_routes::{Routed, Routes};

const ROUTES: &str = "\
POST /objects ~ a: b ~ define a: b
GET /objects ~ a: b ~ objects
GET /objects/SLO/Shop ~  ~ object Slo Shop
DELETE /objects/AlertNotificationTarget/on-call ~ x ~ remove AlertNotificationTarget on-call
PUT /zones/Europe/Berlin ~ CET-1 ~ zone Europe/Berlin CET-1
PUT /zones//x ~  ~ zone /x 
PUT /zones/a/ ~  ~ zone a/ 
POST /samples ~ a,b,1,2,3,4 ~ samples a b 1 2 3/4
PUT /exclusions/night ~ {\"to\":9,\"from\":5,\"slo\":\"shop\"} ~ exclude night shop 5 9
DELETE /exclusions/night ~  ~ lift night
POST /tick ~ {} ~ tick
GET /notices ~  ~ notices
POST /notices/007/take ~ x ~ take 7
POST /notices/4294967295/take ~  ~ take 4294967295
POST /upgrade ~ x ~ upgrade
GET /budgets/shop-slo ~  ~ budgets shop-slo None
GET /burns/shop-slo/1?lookback=1h ~  ~ burn shop-slo 1 1 Hour None
GET /alerts/shop-slo/0/fast?from=2&to=9 ~  ~ timeline shop-slo 0 fast 2 9
GET /entries?from=007 ~ x ~ entries 7
GET /samples/shop-good/web/0570239 ~ x ~ row shop-good web 570239
GET /exclusions ~ x ~ exclusions
GET /zones ~ x ~ zones
GET /status ~ x ~ status
GET /sums/shop-slo/1?from=2&to=9&step=3 ~ x ~ sums shop-slo 1 2 9 3
GET /windows/shop-slo?from=2&to=9 ~ x ~ windows shop-slo 2 9";

const REFUSALS: &str = "\
GET / ~  ~ NotFound
GET * ~  ~ NotFound
GET http://office/objects ~  ~ NotFound
BREW /object ~  ~ NotFound
GET /objects/ ~  ~ NotFound
GET /objects/Slo/shop ~  ~ NotFound
GET /objects/SLO/ ~  ~ NotFound
GET /objects/SLO/a%2Db ~  ~ NotFound
GET /objects/SLO/a/b ~  ~ NotFound
GET /budgets/a123456789b123456789c123456789d123456789e123456789f123456789xyz4 ~  ~ NotFound
PUT /zones/ ~  ~ NotFound
PUT /zones/a%20b ~  ~ NotFound
POST /samples/ ~  ~ NotFound
POST /upgrade/ ~  ~ NotFound
GET /entries/?from=0 ~  ~ NotFound
PUT /exclusions/a/b ~  ~ NotFound
POST /notices/4294967296/take ~  ~ NotFound
POST /notices/+1/take ~  ~ NotFound
POST /notices//take ~  ~ NotFound
POST /notices/1/take/ ~  ~ NotFound
GET /burns/shop/x?lookback=1h ~  ~ NotFound
GET /burns/shop?lookback=1h ~  ~ NotFound
GET /alerts/shop/0?from=1&to=2 ~  ~ NotFound
GET /alerts/shop/0/fast/x?from=1&to=2 ~  ~ NotFound
GET /samples/a/b ~  ~ NotFound
GET /samples/a/b/4294967296 ~  ~ NotFound
GET /samples/a/b/1/ ~  ~ NotFound
GET /exclusions/ ~  ~ NotFound
GET /zones/ ~  ~ NotFound
GET /status/ ~  ~ NotFound
GET /sums/shop?from=1&to=2&step=1 ~  ~ NotFound
GET /windows/shop/0?from=1&to=2 ~  ~ NotFound
HEAD /objects ~  ~ Method(PostGet)
get /objects ~  ~ Method(PostGet)
PUT /objects/SLO/shop?x=1 ~  ~ Method(GetDelete)
GET /zones/Europe/Berlin ~  ~ Method(Put)
GET /samples ~ x ~ Method(Post)
GET /exclusions/night ~  ~ Method(PutDelete)
GET /tick ~  ~ Method(Post)
GET /upgrade ~  ~ Method(Post)
POST /notices ~  ~ Method(Get)
GET /notices/1/take ~  ~ Method(Post)
POST /budgets/shop?at=x ~  ~ Method(Get)
POST /burns/shop/0 ~  ~ Method(Get)
DELETE /alerts/shop/0/fast ~  ~ Method(Get)
POST /entries ~  ~ Method(Get)
POST /samples/a/b/1 ~  ~ Method(Get)
POST /exclusions ~  ~ Method(Get)
PUT /zones ~  ~ Method(Get)
POST /status?x=1 ~  ~ Method(Get)
POST /sums/shop/0 ~  ~ Method(Get)
DELETE /windows/shop ~  ~ Method(Get)";

const QUERIES: &str = "\
GET /objects? ~  ~ Query
GET /entries ~  ~ Query
GET /entries?from=0&at=1 ~  ~ Query
GET /entries?from=4294967296 ~  ~ Query
POST /tick?x=1 ~  ~ Query
POST /upgrade?x ~  ~ Query
POST /samples?x=1 ~ none ~ Query
PUT /exclusions/night? ~ none ~ Query
GET /budgets/shop?at=007 ~  ~ budgets shop Some(7)
GET /budgets/shop?at=4294967295 ~  ~ budgets shop Some(4294967295)
GET /budgets/shop?at=4294967296 ~  ~ Query
GET /budgets/shop?at=-1 ~  ~ Query
GET /budgets/shop?at= ~  ~ Query
GET /budgets/shop?at ~  ~ Query
GET /budgets/shop? ~  ~ Query
GET /budgets/shop?at=1& ~  ~ Query
GET /budgets/shop?&at=1 ~  ~ Query
GET /budgets/shop?at=1&at=1 ~  ~ Query
GET /budgets/shop?AT=1 ~  ~ Query
GET /budgets/shop?at=%31 ~  ~ Query
GET /budgets/shop?at=1?at=1 ~  ~ Query
GET /budgets/shop?at=1&x=1 ~  ~ Query
GET /burns/shop/0?at=5&lookback=030d ~  ~ burn shop 0 30 Day Some(5)
GET /burns/shop/0?at=5 ~  ~ Query
GET /burns/shop/0 ~  ~ Query
GET /burns/shop/0?lookback=1h&lookback=1h ~  ~ Query
GET /burns/shop/0?lookback=1s ~  ~ Query
GET /burns/shop/0?lookback=1h&at=x ~  ~ Query
GET /alerts/shop/0/fast?to=2&from=9 ~  ~ timeline shop 0 fast 9 2
GET /alerts/shop/0/fast?from=1 ~  ~ Query
GET /alerts/shop/0/fast?to=1 ~  ~ Query
GET /alerts/shop/0/fast?from=1&to=2&at=3 ~  ~ Query
GET /samples/a/b/1?at=1 ~  ~ Query
GET /status? ~  ~ Query
GET /sums/shop/0?step=003&to=2&from=1 ~  ~ sums shop 0 1 2 3
GET /sums/shop/0?to=2&from=1 ~  ~ Query
GET /sums/shop/0?step=1&to=2 ~  ~ Query
GET /sums/shop/0?step=1&from=2 ~  ~ Query
GET /sums/shop/0?step=1&to=2&from=1&to=2 ~  ~ Query
GET /sums/shop/0?step=1&to=2&from=1&at=2 ~  ~ Query
GET /sums/shop/0?step=4294967296&to=2&from=1 ~  ~ Query
GET /windows/shop?to=2&from=1&step=1 ~  ~ Query
GET /windows/shop?to=2 ~  ~ Query";

const SAMPLES: &str = "\
;; ~ samples
 ~ samples
a,b,1,2,3,4;a,b,0002,1,0.5,; ~ samples a b 1 2 3/4 a b 2 1 500000000
\u{feff}\"a\",b,\"1\",2,3,4 ~ samples a b 1 2 3/4
a,b,67108863,1000000000,4294967295,0 ~ samples a b 67108863 1000000000 4294967295/0
a,b,67108864,1,1,1 ~ Record(1)
a,b,1,1000000001,1,1 ~ Record(1)
a,b,1,0,1,1 ~ Record(1)
a,b,1,1,4294967296,1 ~ Record(1)
a,b,1,1,1,4294967296 ~ Record(1)
a,b,1,1,1000000000, ~ samples a b 1 1 1000000000000000000
a,b,1,1,1000000000.1, ~ Record(1)
a,b,1,2,,;\"a\",\"b\",1,3,\"\",\"\" ~ samples a b 1 2 withdrawn a b 1 3 withdrawn
a,b,1,1,,1 ~ Record(1)
a,b,1,1, , ~ Record(1)
a,b,1,1,,  ~ Record(1)
a,b,1,1, ~ Record(1)
a,b,1,1,,, ~ Record(1)
a,b,1,1,0.5,1 ~ Record(1)
a,b,1,1,1 ~ Record(1)
a,b,1,1,1,1,1 ~ Record(1)
a,b c,1,1,1,1 ~ Record(1)
a,b,1,1,1,1;  ~ Record(2)
;a,b,1,1,1,1;;sli,source,minute,revision,amount,total;x ~ Record(2)
a,b,1,1,1,1;a,b,2,1,1,2;\"a\",b,3,1,1,3;a,b,4,1,1,4; ~ \
samples a b 1 1 1/1 a b 2 1 1/2 a b 3 1 1/3 a b 4 1 1/4
a,b,1,1,1,1\r;a,b,2,1,1,2\r; ~ samples a b 1 1 1/1 a b 2 1 1/2
\u{feff}a,b,1,1,1,1;a,b,2,1,1,2; ~ samples a b 1 1 1/1 a b 2 1 1/2
a,b,1,1,1,1;a,b,2,0,1,1;a ~ Record(2)
a,b,1,1,1,1;;a,b,2,1,1,1;x ~ Record(3)
a,b,1,1,1,1;a,b,2,1,1,1,; ~ Record(2)";

const EXCLUSIONS: &str = "\
{\"from\":0,\"slo\":\"Shop.1\",\"to\":4294967295} ~ exclude night Shop.1 0 4294967295
 {\"to\" : 2, \"\\u0073lo\" : \"\\u0061\", \"from\" : 1 }  ~ exclude night a 1 2
{\"from\":1,\"slo\":\"a\",\"to\":2,\"to\":3} ~ exclude night a 1 3
{\"from\":1e999,\"from\":1,\"slo\":\"a\",\"to\":2} ~ Body
{\"from\":01,\"slo\":\"a\",\"to\":2} ~ Body
{\"from\":-0,\"slo\":\"a\",\"to\":2} ~ Body
{\"from\":1.0,\"slo\":\"a\",\"to\":2} ~ Body
{\"from\":1e0,\"slo\":\"a\",\"to\":2} ~ Body
{\"from\":\"1\",\"slo\":\"a\",\"to\":2} ~ Body
{\"from\":1,\"slo\":\"a\",\"to\":4294967296} ~ Body
{\"from\":1,\"slo\":\"a b\",\"to\":2} ~ Body
{\"from\":1,\"slo\":null,\"to\":2} ~ Body
{\"from\":1,\"slo\":\"a\"} ~ Body
{\"from\":1,\"slo\":\"a\",\"to\":2,\"x\":3} ~ Body
[1,\"a\",2] ~ Body
{\"from\":1,\"slo\":\"a\",\"to\":2} 3 ~ Body
{\"slo\":\"~\"} ~ Body
 ~ Body";

/// The text of bytes.
fn text_of(bytes: &Bytes) -> &str {
    str::from_utf8(bytes.as_bytes()).unwrap_or("no text")
}

/// The part and the total of an amount, the billionths of its value, or that it is withdrawn.
fn amount_text(alloc: Global, amount: Amount) -> Result<String, AllocError> {
    match amount {
        Amount::Counts { part, total } => format!(in alloc; "{part}/{total}"),
        Amount::Value(value) => {
            let billionths = value.billionths();
            format!(in alloc; "{billionths}")
        }
        Amount::Withdrawn => String::from_str(alloc, "withdrawn"),
    }
}

/// The rows in words.
fn samples_text(alloc: Global, rows: &Rows) -> Result<String, AllocError> {
    let mut text = String::from_str(alloc, "samples")?;
    for row in rows.as_slice() {
        let amount = amount_text(alloc, row.amount)?;
        let (sli, source, minute, revision) = (row.sli, row.source, row.minute, row.revision);
        text.push_str(&format!(in alloc; " {sli} {source} {minute} {revision} {amount}")?)?;
    }
    Ok(text)
}

fn exclusion_text(alloc: Global, value: &Exclusion) -> Result<String, AllocError> {
    let (id, slo, from, to) = (value.id, value.slo, value.from, value.to);
    format!(in alloc; "exclude {id} {slo} {from} {to}")
}

/// A change in words.
pub(crate) fn change_text(alloc: Global, command: &Command) -> Result<String, AllocError> {
    match command {
        Command::Define(documents) => {
            let text = text_of(documents);
            format!(in alloc; "define {text}")
        }
        Command::Remove(kind, name) => format!(in alloc; "remove {kind:?} {name}"),
        Command::PutZone(name, bytes) => {
            let text = text_of(bytes);
            format!(in alloc; "zone {name} {text}")
        }
        Command::Samples(rows) => samples_text(alloc, rows),
        Command::Exclude(value) => exclusion_text(alloc, value),
        Command::Lift(id) => format!(in alloc; "lift {id}"),
        Command::Tick => String::from_str(alloc, "tick"),
        Command::Take(number) => format!(in alloc; "take {number}"),
        Command::Upgrade => String::from_str(alloc, "upgrade"),
    }
}

/// A question in words.
fn query_text(alloc: Global, query: &Query) -> Result<String, AllocError> {
    match query {
        Query::Objects => String::from_str(alloc, "objects"),
        Query::Object { kind, name } => format!(in alloc; "object {kind:?} {name}"),
        Query::Budgets { slo, at } => format!(in alloc; "budgets {slo} {at:?}"),
        Query::Burn {
            slo,
            objective,
            lookback,
            at,
        } => {
            let (count, unit) = (lookback.count, lookback.unit);
            format!(in alloc; "burn {slo} {objective} {count} {unit:?} {at:?}")
        }
        Query::Timeline {
            slo,
            objective,
            policy,
            from,
            to,
        } => format!(in alloc; "timeline {slo} {objective} {policy} {from} {to}"),
        Query::Notices => String::from_str(alloc, "notices"),
        Query::Entries { from } => format!(in alloc; "entries {from}"),
        Query::Row {
            sli,
            source,
            minute,
        } => format!(in alloc; "row {sli} {source} {minute}"),
        Query::Exclusions => String::from_str(alloc, "exclusions"),
        Query::Zones => String::from_str(alloc, "zones"),
        Query::Status => String::from_str(alloc, "status"),
        Query::Sums {
            slo,
            objective,
            from,
            to,
            step,
        } => format!(in alloc; "sums {slo} {objective} {from} {to} {step}"),
        Query::Windows { slo, from, to } => format!(in alloc; "windows {slo} {from} {to}"),
    }
}

/// What is routed, in words.
fn routed_text(alloc: Global, routed: &Routed) -> Result<String, AllocError> {
    match routed {
        Routed::Request(Request::Change(command)) => change_text(alloc, command),
        Routed::Request(Request::Ask(query)) => query_text(alloc, query),
        Routed::NoRequest(reason) => format!(in alloc; "{reason:?}"),
        Routed::NoMemory => Err(AllocError),
    }
}

/// A message with a body in which `;` ends lines, and `~` is a byte that is no character.
fn message_of(alloc: Global, start: &str, body: &str) -> Result<Vec<u8>, AllocError> {
    let length = body.len();
    let head = format!(in alloc; "{start} HTTP/1.1\r\nContent-Length: {length}\r\n\r\n")?;
    let mut bytes = Vec::from_slice(alloc, head.as_bytes())?;
    for byte in body.as_bytes() {
        bytes.push(match *byte {
            b';' => b'\n',
            b'~' => 0xff,
            other => other,
        })?;
    }
    Ok(bytes)
}

/// What becomes of a message, in words.
fn answer(rt: &(impl AllocGlobal + Abort), routes: &Routes, start: &str, body: &str) -> String {
    let bytes = message_of(rt.alloc(), start, body).expect(rt, "memory");
    match read_request(&bytes) {
        Heard::Whole(message, _) => {
            let routed = routes.request(rt.alloc(), &message, &bytes);
            let text = routed_text(rt.alloc(), &routed).expect(rt, "memory");
            mem::forget(routed);
            text
        }
        _ => String::from_str(rt.alloc(), "no message").expect(rt, "memory"),
    }
}

/// Each message of a table is answered as its line says, with this in front of the line.
fn expect_answers(rt: &(impl AllocGlobal + Abort), front: &str, table: &str) {
    let routes = Routes::new(rt.alloc()).expect(rt, "memory");
    for line in table.split('\n') {
        let whole = format!(in rt.alloc(); "{front}{line}").expect(rt, "memory");
        let (start, rest) = whole.split_once(" ~ ").unwrap_or(("", ""));
        let (body, wanted) = rest.split_once(" ~ ").unwrap_or(("", "no line"));
        expect_text(rt, line, &answer(rt, &routes, start, body), wanted);
    }
    mem::forget(routes);
}

#[test]
fn each_route_has_its_requests(rt: HostRuntime) {
    expect_answers(&rt, "", ROUTES);
}

#[test]
fn paths_and_methods_are_refused_in_order(rt: HostRuntime) {
    expect_answers(&rt, "", REFUSALS);
}

#[test]
fn queries_are_of_their_keys(rt: HostRuntime) {
    expect_answers(&rt, "", QUERIES);
}

#[test]
fn samples_are_rows(rt: HostRuntime) {
    expect_answers(&rt, "POST /samples ~ ", SAMPLES);
}

#[test]
fn exclusions_are_objects_of_three_members(rt: HostRuntime) {
    expect_answers(&rt, "PUT /exclusions/night ~ ", EXCLUSIONS);
}
