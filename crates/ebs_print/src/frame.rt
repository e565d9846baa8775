// Status line, head and body of an answer (RFC 9112, section 2.1).
ghost use Rattle.std.specs.Prelude.{◌≡◌, ◌++◌, string_bytes, IfOk};
ghost use Rattle.ebs_shown.specs.inner.Members.{members_of};
ghost use Rattle.ebs_print.specs.Printed as spec;

use ebs_model::Bytes;
use ebs_shown::Object;
use http::StatusCode;
use std::alloc::{AllocError, Global};

/// The message with an object as its body. `lines` are further lines of the head, each with its end.
pub fn json_message(status: StatusCode, lines: &str, object: Object) -> Result<Bytes, AllocError>
    ensures { IfOk result (λ text. text ≡ spec.json_message status lines.now (members_of object)) }
{
    let alloc = object.alloc();
    let body = object.text()?;
    let head = head(alloc, status, "application/json", body.len(), lines)?;
    joined(head, body.as_str())
}

fn joined(mut head: String, body: &str) -> Result<Bytes, AllocError>
    ensures { IfOk result (λ text. text ≡ string_bytes head ++ body.now) }
{
    head.push_str(body)?;
    Ok(Bytes::from_vec(head.into_bytes()))
}

#[tactic(auto, unfolding(crate::specs::Printed::head))]
pub fn head(
    alloc: Global,
    status: StatusCode,
    kind: &str,
    size: usize,
    lines: &str,
) -> Result<String, AllocError>
    ensures { IfOk result (λ text. string_bytes text ≡ spec.head status kind.now size lines.now) }
{
    format!(in alloc;
        "HTTP/1.1 {status}\r\nContent-Type: {kind}\r\nContent-Length: {size}\r\n{lines}\r\n"
    )
}
