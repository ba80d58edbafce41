//! The heads of requests.
ghost use Rattle.std.specs.Prelude.{◌≡◌, ◌+◌, ◌≤◌, ◌++◌, length};
ghost use Rattle.request_texts.specs.Requests.{head_of};

use crate::line::Line;

/// The most bytes of a method and a target: `DELETE /exclusions/` has 19, a name 63.
pub const MAX_TARGET_BYTES: usize = 82;

/// Appends what follows a method and a target in the head of a request whose body has so many
/// bytes.
fn push_rest(head: &mut Line, body: u64)
    requires { length head.old ≤ MAX_TARGET_BYTES }
    ensures { head.new ≡ head_of head.old body }
{
    head.push(" HTTP/1.1\r\nHost: office\r\nContent-Length: ");
    head.push_number(body);
    head.push("\r\n\r\n");
}

/// The head of a request of a method and a target, whose body has so many bytes.
pub fn head(line: &str, body: u64) -> Line
    requires { length line.now ≤ MAX_TARGET_BYTES }
    ensures { result ≡ head_of line.now body }
{
    let mut head = Line::new();
    head.push(line);
    push_rest(&mut head, body);
    head
}

/// The same where a name ends the target.
pub fn named_head(line: &str, name: &str, body: u64) -> Line
    requires { length line.now + length name.now ≤ MAX_TARGET_BYTES }
    ensures { result ≡ head_of (line.now ++ name.now) body }
{
    let mut head = Line::new();
    head.push(line);
    head.push(name);
    push_rest(&mut head, body);
    head
}
