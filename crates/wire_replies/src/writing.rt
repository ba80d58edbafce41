//! Replies as bytes.
ghost use Rattle.std.specs.Prelude.{◌≡◌, ◌+◌, ◌++◌, ◌≤◌, [], OnOk, OnErr, length};
ghost use Rattle.office_outside.specs.Faults.{HasCause};
ghost use Rattle.office_outside.specs.Told.{Gained, GainedPrefix};
ghost use Rattle.wire_replies.specs.Answers.{no_memory_answer, shown_answer};
ghost use Rattle.wire_replies.specs.Heads.{allow_line, connection_line, head_of, phrase_of};
ghost use Rattle.wire_replies.specs.Heads.{reply_bytes, type_of};

use crate::inline_bytes::InlineBytes;
use crate::reply::{Form, Reply};
use http::StatusCode;
use office_outside::{Failed, Sink, write_whole};
use wire_terms::Allow;

/// A reply of at most so many bytes is written at once: nearly each but long lists.
type Page = InlineBytes<4096>;

/// The phrase of a status.
fn phrase(status: u16) -> &'static str
    ensures text { result.now ≡ phrase_of status }
    ensures short { length result.now ≤ 31 }
{
    match StatusCode::from_u16(status) {
        Ok(code) => code.canonical_reason().unwrap_or(""),
        Err(_) => "",
    }
}

fn type_of(form: Form) -> &'static str
    ensures text { result.now ≡ type_of form }
    ensures short { length result.now ≤ 24 }
{
    match form {
        Form::Json => "application/json",
        Form::Yaml => "application/yaml",
        Form::Octets => "application/octet-stream",
    }
}

fn allow_line(allow: Allow) -> &'static str
    ensures text { result.now ≡ allow_line allow }
    ensures short { length result.now ≤ 20 }
{
    match allow {
        Allow::None => "",
        Allow::PostGet => "Allow: POST, GET\r\n",
        Allow::GetDelete => "Allow: GET, DELETE\r\n",
        Allow::PutDelete => "Allow: PUT, DELETE\r\n",
        Allow::Get => "Allow: GET\r\n",
        Allow::Post => "Allow: POST\r\n",
        Allow::Put => "Allow: PUT\r\n",
    }
}

fn connection_line(last: bool) -> &'static str
    ensures text { result.now ≡ connection_line last }
    ensures short { length result.now ≤ 24 }
{
    if last {
        "Connection: close\r\n"
    } else {
        "Connection: keep-alive\r\n"
    }
}

/// Writes the head of a reply whose body has so many bytes into an empty page.
fn push_head(page: &mut Page, status: u16, form: Form, allow: Allow, count: usize, last: bool)
    requires { page.old ≡ [] }
    ensures text { page.new ≡ head_of status form allow count last }
    ensures short { length page.new ≤ 256 }
{
    page.push("HTTP/1.1 ");
    page.push_u64(status as u64);
    page.push(" ");
    page.push(phrase(status));
    page.push("\r\nContent-Type: ");
    page.push(type_of(form));
    page.push("\r\nContent-Length: ");
    page.push_u64(count as u64);
    page.push("\r\n");
    page.push(allow_line(allow));
    page.push(connection_line(last));
    page.push("\r\n");
}

/// The body where memory was refused.
#[tactic(auto, unfolding(serde_json::proofs::OnLiterals::serde_json_on_literals))]
fn no_memory_body() -> &'static [u8]
    ensures { result.now ≡ no_memory_answer.body }
{
    b"{\"error\":\"no_memory\"}"
}

/// Writes a page and a body behind it, at once where the page has room for both.
fn write_behind<K: Sink>(page: &mut Page, body: &[u8], output: &mut K) -> Result<(), Failed>
    ensures gained { OnOk result
        (Gained (page.old ++ body.now) (K.held output.old) (K.held output.new)) }
    ensures part { OnErr result
        (GainedPrefix (page.old ++ body.now) (K.held output.old) (K.held output.new)) }
    ensures cause { HasCause (K.faults output.old) (K.faults output.new) result }
{
    if body.len() <= page.room() {
        page.push_bytes(body);
        return write_whole(output, page.as_bytes());
    }
    write_whole(output, page.as_bytes())?;
    write_whole(output, body)
}

/// Writes a head and a body.
fn write_parts<K: Sink>(
    status: u16,
    form: Form,
    allow: Allow,
    body: &[u8],
    last: bool,
    output: &mut K,
) -> Result<(), Failed>
    ensures gained { OnOk result
        (Gained (head_of status form allow (length body.now) last ++ body.now)
        (K.held output.old) (K.held output.new)) }
    ensures part { OnErr result
        (GainedPrefix (head_of status form allow (length body.now) last ++ body.now)
        (K.held output.old) (K.held output.new)) }
    ensures cause { HasCause (K.faults output.old) (K.faults output.new) result }
{
    let mut page = Page::new();
    push_head(&mut page, status, form, allow, body.len(), last);
    write_behind(&mut page, body, output)
}

/// Writes a reply, as the last of its connection or not: its head and its body at once, where they
/// have at most 4,096 bytes. After `Failed` a prefix of it was written.
pub fn write_reply<K: Sink>(value: &Reply, last: bool, output: &mut K) -> Result<(), Failed>
    ensures gained { OnOk result
        (Gained (reply_bytes last (shown_answer value.now))
        (K.held output.old) (K.held output.new)) }
    ensures part { OnErr result
        (GainedPrefix (reply_bytes last (shown_answer value.now))
        (K.held output.old) (K.held output.new)) }
    ensures cause { HasCause (K.faults output.old) (K.faults output.new) result }
{
    match value {
        Reply::Full {
            status,
            form,
            allow,
            body,
        } => write_parts(*status, *form, *allow, body.as_bytes(), last, output),
        Reply::Small {
            status,
            allow,
            body,
        } => write_parts(*status, Form::Json, *allow, body.as_bytes(), last, output),
        Reply::NoMemory => write_parts(
            503,
            Form::Json,
            Allow::None,
            no_memory_body(),
            last,
            output,
        ),
    }
}
