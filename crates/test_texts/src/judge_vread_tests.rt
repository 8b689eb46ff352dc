use judge_vread::follow::{VreadPath, follow};
use judge_vread::inside::{Inside, Reached};
use judge_vread::seen::SeenStep;
use judge_vread::served::Served;
use judge_vread::system_call::system_call;
use key_names::{Answer, InsideAct, Point};
use std::alloc::Global;
use std::test::Fail;
use vdso_state::VState;

// Bytes 0 to 32 of the keystream of the zero key (RFC 8439, appendix A.1, test vector 1).
const ZERO_KEY_AT_0: [u8; 32] = [
    118, 184, 224, 173, 160, 241, 61, 144, 64, 93, 106, 229, 83, 134, 189, 40, 189, 210, 25, 184,
    160, 141, 237, 26, 168, 54, 239, 204, 139, 119, 13, 199,
];

// Bytes 0 to 32 of the keystream of the call key, which is bytes 32 to 64 of the zero key's keystream. These bytes and
// those below were computed by a program in another language.
const CALL_KEY_AT_0: [u8; 32] = [
    24, 133, 124, 215, 241, 77, 124, 129, 201, 51, 99, 115, 160, 193, 18, 165, 94, 12, 229, 198,
    16, 135, 19, 155, 42, 39, 121, 192, 43, 253, 25, 90,
];

fn made(alloc: Global, served: &Served) -> Result<Vec<u8>, Fail> {
    let mut out = Vec::new(alloc);
    served.put(&mut out)?;
    Ok(out)
}

fn checked(path: Option<VreadPath>) -> Result<VreadPath, Fail> {
    Ok(path.ok_or("no path")?)
}

#[test]
fn a_current_key_serves(rt: HostRuntime) -> Result<(), Fail> {
    let mut st = VState::keyed([0; 32], 2);
    let seen = [SeenStep::Ready(1), SeenStep::Ready(1), SeenStep::Ready(1)];
    let mut inside = Inside::none();
    inside.add(Point::Written, InsideAct::Wipe);
    let path = checked(follow(&mut st, 32, 0, inside, &seen))?;
    assert_eq!(rt; path.answer, Answer::Ok);
    assert_eq!(rt; path.reached, Reached::AllButWritten);
    assert!(rt; path.served.is(&ZERO_KEY_AT_0));
    assert_eq!(rt; st.left(), 64);
    Ok(())
}

#[test]
fn a_key_is_read_first(rt: HostRuntime) -> Result<(), Fail> {
    let seen = [
        SeenStep::Ready(1),
        SeenStep::Ready(1),
        SeenStep::Ready(1),
        SeenStep::Ready(1),
        SeenStep::Cpu([0; 32]),
        SeenStep::Ready(1),
    ];
    let mut inside = Inside::none();
    inside.add(Point::Serve, InsideAct::Reseed);
    let mut st = VState::wiped();
    let path = checked(follow(&mut st, 32, 0, inside, &seen))?;
    assert_eq!(rt; path.reached, Reached::All);
    assert!(rt; path.served.is(&CALL_KEY_AT_0));
    assert_eq!(rt; st.generation(), 2);
    let short = follow(&mut VState::wiped(), 32, 0, inside, &seen[..5]);
    assert!(rt; short.is_none());
    Ok(())
}

#[test]
fn a_wipe_and_a_reseed_lead_to_the_system_call(rt: HostRuntime) -> Result<(), Fail> {
    let seen = [
        SeenStep::Ready(1),
        SeenStep::Ready(1),
        SeenStep::Ready(1),
        SeenStep::Ready(1),
        SeenStep::Ready(1),
        SeenStep::Ready(1),
        SeenStep::Cpu([0; 32]),
        SeenStep::Ready(2),
        SeenStep::Ready(2),
        SeenStep::Ready(2),
        SeenStep::Cpu([0; 32]),
    ];
    let mut inside = Inside::none();
    inside.add(Point::End, InsideAct::Wipe);
    let mut st = VState::keyed([7; 32], 2);
    let path = checked(follow(&mut st, 32, 0, inside, &seen))?;
    assert_eq!(rt; path.reached, Reached::AllButWritten);
    let bytes = made(rt.alloc(), &path.served)?;
    assert!(rt; Served::of_user(&[0; 32], 32).is(&bytes));
    assert!(rt; !st.is_in_use());
    Ok(())
}

#[test]
fn a_long_read_in_pieces(rt: HostRuntime) -> Result<(), Fail> {
    let served = Served::of_kernel(&[0; 32], 10_000);
    let mut bytes = made(rt.alloc(), &served)?;
    assert_eq!(rt; bytes.len(), 10_000);
    assert_eq!(rt; bytes.len(), served.len());
    assert_eq!(rt;
        &bytes[9_992..],
        [8, 31, 19, 237, 100, 118, 58, 57].as_slice()
    );
    assert_eq!(rt; &bytes[4_090..4_094], [43, 79, 93, 18].as_slice());
    assert!(rt; served.is(&bytes));
    let _last = bytes.pop();
    assert!(rt; !served.is(&bytes));
    bytes.push(0)?;
    assert!(rt; !served.is(&bytes));
    assert!(rt; Served::of_int(&[0; 32], 4, 3).is(&[184, 216, 74, 55]));
    assert!(rt; Served::none().is(&[]));
    Ok(())
}

#[derive(Drop)]
struct VreadRow<'a> {
    len: u32,
    flags: u32,
    seen: &'a [SeenStep],
    answer: Option<Answer>,
}

#[test]
fn system_calls_by_their_steps(rt: HostRuntime) {
    let base = SeenStep::Base([0; 32]);
    let cpu = SeenStep::Cpu([0; 32]);
    let rows = [
        VreadRow {
            len: 8,
            flags: 6,
            seen: &[],
            answer: Some(Answer::Invalid),
        },
        VreadRow {
            len: 8,
            flags: 1,
            seen: &[SeenStep::Unready],
            answer: Some(Answer::Again),
        },
        VreadRow {
            len: 8,
            flags: 4,
            seen: &[SeenStep::Unready, SeenStep::Pool, base],
            answer: Some(Answer::Ok),
        },
        VreadRow {
            len: 8,
            flags: 0,
            seen: &[SeenStep::Unready, base, base],
            answer: Some(Answer::Interrupted),
        },
        VreadRow {
            len: 8,
            flags: 0,
            seen: &[
                SeenStep::Unready,
                base,
                SeenStep::Resumed,
                SeenStep::Ready(1),
                cpu,
            ],
            answer: Some(Answer::Ok),
        },
        VreadRow {
            len: 8,
            flags: 0,
            seen: &[SeenStep::Ready(1), SeenStep::Ready(1), base, cpu],
            answer: Some(Answer::Ok),
        },
        VreadRow {
            len: 0,
            flags: 0,
            seen: &[SeenStep::Ready(1)],
            answer: Some(Answer::Ok),
        },
        VreadRow {
            len: 8,
            flags: 0,
            seen: &[SeenStep::Ready(1)],
            answer: None,
        },
        VreadRow {
            len: 8,
            flags: 0,
            seen: &[SeenStep::Ready(1), SeenStep::Ready(1), SeenStep::Elsewhere],
            answer: None,
        },
    ];
    for (i, row) in rows.iter().enumerate() {
        let answer = system_call(row.len, row.flags, row.seen).map(|c| c.answer);
        assert_eq!(rt; answer, row.answer, "at {i}");
    }
}
