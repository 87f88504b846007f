//! Bodies that come at the other end of a session (`ordered_link`).

ghost use Rattle.std.specs.Prelude.{◌≤◌};

use an_base::body::{AnswerBody, Body};
use ordered_link::receiver::{Receiver, Verdict};
use std::process::Abort;

// Passes the body with version `k` as body `k` to the receiver.
fn come(receiver: &mut Receiver, k: u32) -> Verdict
    requires { 1 ≤ k }
{
    receiver.on_carry(k, Body::Answer(AnswerBody::new(k, false)))
}

// Accepts the held body that is expected next, and returns its version.
fn next_version(receiver: &mut Receiver) -> Option<u32> {
    match receiver.next()? {
        Body::Answer(body) => Some(body.version),
        _ => None,
    }
}

// Asserts that the first body is accepted, and that the third one, which came before the second, is
// held.
fn come_early(rt: &impl Abort, receiver: &mut Receiver) {
    assert!(rt; matches!(come(receiver, 1), Verdict::Accepted(_)));
    assert!(rt; next_version(receiver) == None);
    assert!(rt; matches!(come(receiver, 3), Verdict::Held { wanted: 2, got: 3 }));
    assert!(rt; matches!(come(receiver, 3), Verdict::Repeat { last: 1 }));
    assert!(rt; matches!(come(receiver, 2), Verdict::Accepted(_)));
}

#[test]
fn a_body_that_comes_early_is_held_until_it_is_wanted(rt: HostRuntime) {
    let mut receiver = Receiver::new();
    come_early(&rt, &mut receiver);
    assert!(rt; next_version(&mut receiver) == Some(3));
    assert!(rt; next_version(&mut receiver) == None);
    assert!(rt;
        matches!(
            come(&mut receiver, 12),
            Verdict::Ahead { wanted: 4, got: 12 }
        )
    );
}
