//! The request of a message.
ghost use Rattle.std.specs.Prelude.{◌≡◌, ◌<◌, ◌^◌, ℕ, List, length, Ok, Err, IfOk};
ghost use Rattle.message_heads.specs.Hearing.{Hears};
ghost use Rattle.message_heads.specs.Streams.{said_in};
ghost use Rattle.message_heads.specs.declared.message.Heard.TheVariants.{Whole};
ghost use Rattle.record_form.specs.declared.command.Command.TheVariants.{Define, Exclude, PutZone};
ghost use Rattle.record_form.specs.declared.query.Request.TheVariants.{Change};
ghost use Rattle.wire_routes.specs.declared.place.Place.TheVariants as place;
ghost use Rattle.wire_routes.specs.Exclusions.{exclusion_of};
ghost use Rattle.wire_routes.specs.Queries.{bytes_of};
ghost use Rattle.wire_routes.specs.Ranges.{IsRoutedInRange};
ghost use Rattle.wire_routes.specs.Requests.{IsRouted, IsRoutedAs, answer_at, exclusion_answer};
ghost use Rattle.wire_routes.specs.Requests.{samples_answer, without_keys};
ghost use Rattle.wire_routes.specs.Samples.{samples_of};

use crate::exclusion::read_exclusion;
use crate::find::Routes;
use crate::keys::{budgets_keys, burns_keys, entries_keys, stretch_keys, sums_keys};
use crate::method::{Method, method_of};
use crate::place::Place;
use crate::routed::Routed;
use crate::samples::{SampleFault, read_samples};
use exact_fraction::{Bytes, Label, ZoneName};
use message_heads::{Message, target_of};
use object_terms::Kind;
use record_form::{Command, Query, Request};
use std::alloc::{AllocError, Global};
use wire_terms::{Allow, NoRequest};

/// A request of a route that has no keys.
fn without_keys(query: Option<&[u8]>, request: Request) -> Routed
    ensures { IsRoutedAs (without_keys (bytes_of query.entry) (Ok request)) result }
{
    if query.is_some() {
        return Routed::NoRequest(NoRequest::Query);
    }
    Routed::Request(request)
}

fn other_methods(allow: Allow) -> Routed
    ensures { result ≡ Routed.NoRequest (NoRequest.Method allow) }
{
    Routed::NoRequest(NoRequest::Method(allow))
}

fn copy_of(alloc: Global, body: &[u8]) -> Result<Bytes, AllocError>
    ensures { IfOk result (λ bytes. bytes ≡ body.now) }
{
    Ok(Bytes::from_vec(Vec::from_slice(alloc, body)?))
}

fn define(alloc: Global, query: Option<&[u8]>, body: &[u8]) -> Routed
    ensures { IsRoutedAs (without_keys (bytes_of query.entry) (Ok (Change (Define body.now))))
        result }
{
    if query.is_some() {
        return Routed::NoRequest(NoRequest::Query);
    }
    match copy_of(alloc, body) {
        Ok(documents) => Routed::Request(Request::Change(Command::Define(documents))),
        Err(_) => Routed::NoMemory,
    }
}

fn put_zone(alloc: Global, name: ZoneName, query: Option<&[u8]>, body: &[u8]) -> Routed
    ensures { IsRoutedAs (without_keys (bytes_of query.entry) (Ok (Change (PutZone name body.now))))
        result }
{
    if query.is_some() {
        return Routed::NoRequest(NoRequest::Query);
    }
    match copy_of(alloc, body) {
        Ok(bytes) => Routed::Request(Request::Change(Command::PutZone(name, bytes))),
        Err(_) => Routed::NoMemory,
    }
}

fn take_samples(alloc: Global, query: Option<&[u8]>, body: &[u8]) -> Routed
    requires { length body.now < 2 ^ 32 }
    ensures { IsRoutedAs (without_keys (bytes_of query.entry)
        (samples_answer (samples_of body.now))) result }
{
    if query.is_some() {
        return Routed::NoRequest(NoRequest::Query);
    }
    match read_samples(alloc, body) {
        Ok(rows) => Routed::Request(Request::Change(Command::Samples(rows))),
        Err(SampleFault::Record(number)) => Routed::NoRequest(NoRequest::Record(number)),
        Err(SampleFault::NoMemory) => Routed::NoMemory,
    }
}

fn exclude(alloc: Global, id: Label, query: Option<&[u8]>, body: &[u8]) -> Routed
    ensures { IsRoutedAs
        (without_keys (bytes_of query.entry) (exclusion_answer (exclusion_of id body.now)))
        result }
{
    if query.is_some() {
        return Routed::NoRequest(NoRequest::Query);
    }
    match read_exclusion(alloc, id, body) {
        Ok(Some(exclusion)) => Routed::Request(Request::Change(Command::Exclude(exclusion))),
        Ok(None) => Routed::NoRequest(NoRequest::Body),
        Err(_) => Routed::NoMemory,
    }
}

fn objects(alloc: Global, method: Method, query: Option<&[u8]>, body: &[u8]) -> Routed
    ensures { IsRoutedAs (answer_at place.Objects method (bytes_of query.entry) body.now) result }
{
    match method {
        Method::Post => define(alloc, query, body),
        Method::Get => without_keys(query, Request::Ask(Query::Objects)),
        Method::Delete | Method::Put | Method::Other => other_methods(Allow::PostGet),
    }
}

fn object(kind: Kind, name: Label, method: Method, query: Option<&[u8]>) -> Routed
    ensures { (body : List ℕ)
        → IsRoutedAs (answer_at (place.Object kind name) method (bytes_of query.entry) body)
        result }
{
    match method {
        Method::Get => without_keys(query, Request::Ask(Query::Object { kind, name })),
        Method::Delete => without_keys(query, Request::Change(Command::Remove(kind, name))),
        Method::Post | Method::Put | Method::Other => other_methods(Allow::GetDelete),
    }
}

fn zone(alloc: Global, name: ZoneName, method: Method, query: Option<&[u8]>, body: &[u8]) -> Routed
    ensures { IsRoutedAs (answer_at (place.Zone name) method (bytes_of query.entry) body.now)
        result }
{
    match method {
        Method::Put => put_zone(alloc, name, query, body),
        Method::Delete | Method::Get | Method::Post | Method::Other => other_methods(Allow::Put),
    }
}

fn samples(alloc: Global, method: Method, query: Option<&[u8]>, body: &[u8]) -> Routed
    requires { length body.now < 2 ^ 32 }
    ensures { IsRoutedAs (answer_at place.Samples method (bytes_of query.entry) body.now) result }
{
    match method {
        Method::Post => take_samples(alloc, query, body),
        Method::Delete | Method::Get | Method::Put | Method::Other => other_methods(Allow::Post),
    }
}

fn exclusion(alloc: Global, id: Label, method: Method, query: Option<&[u8]>, body: &[u8]) -> Routed
    ensures { IsRoutedAs (answer_at (place.Exclusion id) method (bytes_of query.entry) body.now)
        result }
{
    match method {
        Method::Put => exclude(alloc, id, query, body),
        Method::Delete => without_keys(query, Request::Change(Command::Lift(id))),
        Method::Get | Method::Post | Method::Other => other_methods(Allow::PutDelete),
    }
}

fn tick(method: Method, query: Option<&[u8]>) -> Routed
    ensures { (body : List ℕ)
        → IsRoutedAs (answer_at place.Tick method (bytes_of query.entry) body) result }
{
    match method {
        Method::Post => without_keys(query, Request::Change(Command::Tick)),
        Method::Delete | Method::Get | Method::Put | Method::Other => other_methods(Allow::Post),
    }
}

fn notices(method: Method, query: Option<&[u8]>) -> Routed
    ensures { (body : List ℕ)
        → IsRoutedAs (answer_at place.Notices method (bytes_of query.entry) body) result }
{
    match method {
        Method::Get => without_keys(query, Request::Ask(Query::Notices)),
        Method::Delete | Method::Post | Method::Put | Method::Other => other_methods(Allow::Get),
    }
}

fn take(number: u32, method: Method, query: Option<&[u8]>) -> Routed
    ensures { (body : List ℕ)
        → IsRoutedAs (answer_at (place.Take number) method (bytes_of query.entry) body) result }
{
    match method {
        Method::Post => without_keys(query, Request::Change(Command::Take(number))),
        Method::Delete | Method::Get | Method::Put | Method::Other => other_methods(Allow::Post),
    }
}

fn upgrade(method: Method, query: Option<&[u8]>) -> Routed
    ensures { (body : List ℕ)
        → IsRoutedAs (answer_at place.Upgrade method (bytes_of query.entry) body) result }
{
    match method {
        Method::Post => without_keys(query, Request::Change(Command::Upgrade)),
        Method::Delete | Method::Get | Method::Put | Method::Other => other_methods(Allow::Post),
    }
}

fn budgets(slo: Label, method: Method, query: Option<&[u8]>) -> Routed
    ensures { (body : List ℕ)
        → IsRoutedAs (answer_at (place.Budgets slo) method (bytes_of query.entry) body) result }
{
    match method {
        Method::Get => match budgets_keys(query) {
            Some(at) => Routed::Request(Request::Ask(Query::Budgets { slo, at })),
            None => Routed::NoRequest(NoRequest::Query),
        },
        Method::Delete | Method::Post | Method::Put | Method::Other => other_methods(Allow::Get),
    }
}

fn burns(slo: Label, objective: u32, method: Method, query: Option<&[u8]>) -> Routed
    ensures { (body : List ℕ)
        → IsRoutedAs (answer_at (place.Burns slo objective) method (bytes_of query.entry) body)
        result }
{
    match method {
        Method::Get => match burns_keys(query) {
            Some((lookback, at)) => Routed::Request(Request::Ask(Query::Burn {
                slo,
                objective,
                lookback,
                at,
            })),
            None => Routed::NoRequest(NoRequest::Query),
        },
        Method::Delete | Method::Post | Method::Put | Method::Other => other_methods(Allow::Get),
    }
}

fn alerts(slo: Label, objective: u32, policy: Label, method: Method, query: Option<&[u8]>) -> Routed
    ensures { (body : List ℕ)
        → IsRoutedAs (answer_at (place.Alerts slo objective policy) method (bytes_of query.entry)
        body) result }
{
    match method {
        Method::Get => match stretch_keys(query) {
            Some((from, to)) => Routed::Request(Request::Ask(Query::Timeline {
                slo,
                objective,
                policy,
                from,
                to,
            })),
            None => Routed::NoRequest(NoRequest::Query),
        },
        Method::Delete | Method::Post | Method::Put | Method::Other => other_methods(Allow::Get),
    }
}

fn entries(method: Method, query: Option<&[u8]>) -> Routed
    ensures { (body : List ℕ)
        → IsRoutedAs (answer_at place.Entries method (bytes_of query.entry) body) result }
{
    match method {
        Method::Get => match entries_keys(query) {
            Some(from) => Routed::Request(Request::Ask(Query::Entries { from })),
            None => Routed::NoRequest(NoRequest::Query),
        },
        Method::Delete | Method::Post | Method::Put | Method::Other => other_methods(Allow::Get),
    }
}

fn row(sli: Label, source: Label, minute: u32, method: Method, query: Option<&[u8]>) -> Routed
    ensures { (body : List ℕ)
        → IsRoutedAs (answer_at (place.Row sli source minute) method (bytes_of query.entry) body)
        result }
{
    match method {
        Method::Get => without_keys(
            query,
            Request::Ask(Query::Row {
                sli,
                source,
                minute,
            }),
        ),
        Method::Delete | Method::Post | Method::Put | Method::Other => other_methods(Allow::Get),
    }
}

fn exclusions(method: Method, query: Option<&[u8]>) -> Routed
    ensures { (body : List ℕ)
        → IsRoutedAs (answer_at place.Exclusions method (bytes_of query.entry) body) result }
{
    match method {
        Method::Get => without_keys(query, Request::Ask(Query::Exclusions)),
        Method::Delete | Method::Post | Method::Put | Method::Other => other_methods(Allow::Get),
    }
}

fn zones(method: Method, query: Option<&[u8]>) -> Routed
    ensures { (body : List ℕ)
        → IsRoutedAs (answer_at place.Zones method (bytes_of query.entry) body) result }
{
    match method {
        Method::Get => without_keys(query, Request::Ask(Query::Zones)),
        Method::Delete | Method::Post | Method::Put | Method::Other => other_methods(Allow::Get),
    }
}

fn status(method: Method, query: Option<&[u8]>) -> Routed
    ensures { (body : List ℕ)
        → IsRoutedAs (answer_at place.Status method (bytes_of query.entry) body) result }
{
    match method {
        Method::Get => without_keys(query, Request::Ask(Query::Status)),
        Method::Delete | Method::Post | Method::Put | Method::Other => other_methods(Allow::Get),
    }
}

fn sums(slo: Label, objective: u32, method: Method, query: Option<&[u8]>) -> Routed
    ensures { (body : List ℕ)
        → IsRoutedAs (answer_at (place.Sums slo objective) method (bytes_of query.entry) body)
        result }
{
    match method {
        Method::Get => match sums_keys(query) {
            Some((from, to, step)) => Routed::Request(Request::Ask(Query::Sums {
                slo,
                objective,
                from,
                to,
                step,
            })),
            None => Routed::NoRequest(NoRequest::Query),
        },
        Method::Delete | Method::Post | Method::Put | Method::Other => other_methods(Allow::Get),
    }
}

fn windows(slo: Label, method: Method, query: Option<&[u8]>) -> Routed
    ensures { (body : List ℕ)
        → IsRoutedAs (answer_at (place.Windows slo) method (bytes_of query.entry) body) result }
{
    match method {
        Method::Get => match stretch_keys(query) {
            Some((from, to)) => { Routed::Request(Request::Ask(Query::Windows { slo, from, to })) }
            None => Routed::NoRequest(NoRequest::Query),
        },
        Method::Delete | Method::Post | Method::Put | Method::Other => other_methods(Allow::Get),
    }
}

/// What a method asks at a place.
fn answer_at(
    alloc: Global,
    place: &Place,
    method: Method,
    query: Option<&[u8]>,
    body: &[u8],
) -> Routed
    requires { length body.now < 2 ^ 32 }
    ensures { IsRoutedAs (answer_at place.now method (bytes_of query.entry) body.now) result }
{
    match place {
        Place::Objects => objects(alloc, method, query, body),
        Place::Object { kind, name } => object(*kind, *name, method, query),
        Place::Zone { name } => zone(alloc, *name, method, query, body),
        Place::Samples => samples(alloc, method, query, body),
        Place::Exclusion { id } => exclusion(alloc, *id, method, query, body),
        Place::Tick => tick(method, query),
        Place::Notices => notices(method, query),
        Place::Take { number } => take(*number, method, query),
        Place::Upgrade => upgrade(method, query),
        Place::Budgets { slo } => budgets(*slo, method, query),
        Place::Burns { slo, objective } => burns(*slo, *objective, method, query),
        Place::Alerts {
            slo,
            objective,
            policy,
        } => alerts(*slo, *objective, *policy, method, query),
        Place::Entries => entries(method, query),
        Place::Row {
            sli,
            source,
            minute,
        } => row(*sli, *source, *minute, method, query),
        Place::Exclusions => exclusions(method, query),
        Place::Zones => zones(method, query),
        Place::Status => status(method, query),
        Place::Sums { slo, objective } => sums(*slo, *objective, method, query),
        Place::Windows { slo } => windows(*slo, method, query),
    }
}

impl Routes {
    /// The request that a whole message stands for, or the answer that it gets without the office:
    /// first of all where no route has its path, then where the route has other methods, then where
    /// the query isn't of the route's keys and forms, then where the body isn't of its form.
    /// `NoMemory` where memory runs out.
    pub fn request(&self, alloc: Global, message: &Message, bytes: &[u8]) -> Routed
        requires { (n : ℕ) × Hears bytes.now (Whole message.now n) }
        ensures stands { IsRouted (said_in bytes.now message.now) result }
        ensures range { IsRoutedInRange result }
    {
        let (path, query) = target_of(message, bytes);
        let Some(place) = self.find(path) else {
            return Routed::NoRequest(NoRequest::NotFound);
        };
        let method = &bytes[message.method.0 as usize..message.method.1 as usize];
        let body = &bytes[message.body.0 as usize..message.body.1 as usize];
        answer_at(alloc, &place, method_of(method), query, body)
    }
}
