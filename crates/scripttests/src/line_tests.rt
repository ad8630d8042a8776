// The lines of calls with their answers, of make and of a bad word.
use plans::Plan;
use protocol::answer::Answer;
use protocol::call::Call;
use protocol::kind::MailKind;
use protocol::refusal::Refusal;
use protocol::state::HeadState;
use sitelines::{bad_word_line, call_line, make_line};
use std::test::Fail;

#[test]
fn calls_with_their_answers(rt: HostRuntime) -> Result<(), Fail> {
    let value = Plan {
        cycle: 100,
        offset: 20,
        green: 50,
    };
    let table = [
        (
            Call::Write { name: 1, value },
            Answer::Written { stamp: 1 },
            "write 1 100 20 50 = 1",
        ),
        (
            Call::Swap { name: 1 },
            Answer::Refused(Refusal::WritingHead),
            "swap 1 ! 15",
        ),
        (
            Call::Swap { name: 2 },
            Answer::Swapped { name: 5 },
            "swap 2 = 5",
        ),
        (Call::Tick, Answer::Refused(Refusal::MailDue), "tick ! 22"),
        (
            Call::Tick,
            Answer::Ticked { time: 3, turned: 1 },
            "tick = 3 1",
        ),
        (
            Call::Read { name: 5 },
            Answer::Value { stamp: 1, value },
            "read 5 = 1 100 20 50",
        ),
        (
            Call::Bring {
                kind: MailKind::Write,
                sender: 1,
                receiver: 3,
            },
            Answer::Brought,
            "bring-write 1 3 = ok",
        ),
        (
            Call::Bring {
                kind: MailKind::Inquiry,
                sender: 5,
                receiver: 1,
            },
            Answer::Brought,
            "bring-inquiry 5 1 = ok",
        ),
        (
            Call::Bring {
                kind: MailKind::Reply,
                sender: 4,
                receiver: 5,
            },
            Answer::Brought,
            "bring-reply 4 5 = ok",
        ),
        (
            Call::Look { name: 4 },
            Answer::Seen {
                state: HeadState::Listening,
                stamp: -1,
            },
            "look 4 = 1 -1",
        ),
    ];
    for (call, answer, text) in table {
        let line = call_line(rt.alloc(), &call, &answer)?;
        assert_eq!(rt; line.as_str(), text);
    }
    Ok(())
}

#[test]
fn other_lines(rt: HostRuntime) -> Result<(), Fail> {
    let made: Result<(), Refusal> = Ok(());
    assert_eq!(rt; make_line(rt.alloc(), &made)?.as_str(), "make = ok");
    let refused: Result<(), Refusal> = Err(Refusal::ChurnLimit);
    assert_eq!(rt; make_line(rt.alloc(), &refused)?.as_str(), "make ! 3");
    assert_eq!(rt;
        bad_word_line(rt.alloc(), 16_384)?.as_str(),
        "bad word 16384"
    );
    Ok(())
}
