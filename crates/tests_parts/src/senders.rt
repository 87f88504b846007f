//! Bodies that are pushed at one end of a session (`ordered_link`).

ghost use Rattle.std.specs.Prelude.{◌≤◌};

use an_base::body::{AnswerBody, Body};
use ordered_link::sender::Sender;
use std::process::Abort;
use std::test::Fail;

// Pushes the body with this version, and returns the number with which it goes out.
fn push<R: Abort>(rt: &R, sender: &mut Sender, version: u32) -> Result<Option<u32>, Fail>
    requires { 1 ≤ version }
{
    assert!(rt; sender.pushed() < 100);
    Ok(sender.push(Body::Answer(AnswerBody::new(version, false)), 0)?)
}

// Pushes nine bodies at tick 0: eight go out, and the ninth waits.
fn push_nine<R: Abort>(rt: &R, sender: &mut Sender) -> Result<(), Fail> {
    for k in 1..9 {
        assert!(rt; push(rt, sender, k)? == Some(k));
    }
    assert!(rt; push(rt, sender, 9)? == None);
    Ok(())
}

#[test]
fn eight_bodies_are_outstanding_and_the_ninth_goes_out_after_an_acknowledgement(
    rt: HostRuntime,
) -> Result<(), Fail> {
    let mut sender = Sender::new(rt.alloc());
    push_nine(&rt, &mut sender)?;
    assert!(rt; sender.due(3) == None);
    assert!(rt; sender.due(4) == Some(1));
    assert!(rt; sender.on_ack(3, 4) == Some(9));
    assert!(rt; sender.more(4) == None);
    Ok(())
}
