//! A small transcript and changed copies of it, each with the first clause on lines and marks that fails for it.
use event_script::{Script, read};
use judge_lines::begin::{Begun, begin};
use judge_lines::clause::Clause;
use judge_lines::seen::bare_callers;
use std::alloc::{AllocError, Global};
use std::test::Fail;
use transcript_text::Transcript;

const SCRIPT: &[u8] =
    b"rngscript 1\ncpus 1\ncaller 0\nwrite 616263\nfork 1\nbits\ncaller 1\nread 16 4\nend\n";

// The clause that fails for each transcript was found by hand.
const CASES: [(&[u8], Option<Clause>); 8] = [
    (
        b"rngtranscript 1\n0.0 write ok p:0@1 -\n0.1 fork ok b:0@2 -\n0.2 bits ok p:2@5 -\n0.3 end ok b:2@6 -\n1.0 read ok ~0,p:1@3,b:1@4 -\n1.1 end ok b:3@7 -\nend\n",
        None,
    ),
    // The line of the `bits` event has the number of another event.
    (
        b"rngtranscript 1\n0.0 write ok p:0@1 -\n0.1 fork ok b:0@2 -\n0.4 bits ok p:2@5 -\n0.3 end ok b:2@6 -\n1.0 read ok ~0,p:1@3,b:1@4 -\n1.1 end ok b:3@7 -\nend\n",
        Some(Clause::Lines),
    ),
    // The child does not end.
    (
        b"rngtranscript 1\n0.0 write ok p:0@1 -\n0.1 fork ok b:0@2 -\n0.2 bits ok p:2@5 -\n0.3 end ok b:2@6 -\n1.0 read ok ~0,p:1@3,b:1@4 -\nend\n",
        Some(Clause::Lines),
    ),
    // Place 1 of the pool is left out.
    (
        b"rngtranscript 1\n0.0 write ok p:0@1 -\n0.1 fork ok b:0@2 -\n0.2 bits ok p:2@5 -\n0.3 end ok b:2@6 -\n1.0 read ok ~0,p:3@3,b:1@4 -\n1.1 end ok b:3@7 -\nend\n",
        Some(Clause::Marks),
    ),
    // In the list of the base the stamps fall after place 1.
    (
        b"rngtranscript 1\n0.0 write ok p:0@1 -\n0.1 fork ok b:0@2 -\n0.2 bits ok p:2@5 -\n0.3 end ok b:2@6 -\n1.0 read ok ~0,p:1@3,b:1@7 -\n1.1 end ok b:3@8 -\nend\n",
        Some(Clause::Marks),
    ),
    // The child's first visit has a lower stamp than the fork of the child.
    (
        b"rngtranscript 1\n0.0 write ok p:0@1 -\n0.1 fork ok b:0@4 -\n0.2 bits ok p:2@6 -\n0.3 end ok b:2@7 -\n1.0 read ok ~0,p:1@3,b:1@5 -\n1.1 end ok b:3@8 -\nend\n",
        Some(Clause::Marks),
    ),
    // A visit of a CPU that does not exist must also have the right place.
    (
        b"rngtranscript 1\n0.0 write ok p:0@1 -\n0.1 fork ok b:0@2 -\n0.2 bits ok p:2@5 -\n0.3 end ok b:2@6 -\n1.0 read ok ~0,p:1@3,b:1@4 -\n1.1 end ok b:3@7,c9:0@8 -\nend\n",
        None,
    ),
    (
        b"rngtranscript 1\n0.0 write ok p:0@1 -\n0.1 fork ok b:0@2 -\n0.2 bits ok p:2@5 -\n0.3 end ok b:2@6 -\n1.0 read ok ~0,p:1@3,b:1@4 -\n1.1 end ok b:3@7,c9:1@8 -\nend\n",
        Some(Clause::Marks),
    ),
];

fn first_fault<'a>(
    alloc: Global,
    script: &'a Script,
    transcript: &'a Transcript,
) -> Result<Option<Clause>, AllocError> {
    // This call is made for its contract: the script is well-formed, which `begin` requires.
    let _version = script.version();
    let lines = bare_callers(alloc, transcript)?;
    match begin(alloc, script, &lines)? {
        Begun::No(clause) => Ok(Some(clause)),
        Begun::Conforms(_) => Ok(None),
    }
}

#[test]
fn changed_transcripts_are_judged(rt: HostRuntime) -> Result<(), Fail> {
    let script = read(rt.alloc(), SCRIPT)?;
    for (text, fault) in CASES {
        assert!(rt; text.len() < 1000);
        let transcript = transcript_text::read(rt.alloc(), text)?;
        assert_eq!(rt; first_fault(rt.alloc(), &script, &transcript)?, fault);
    }
    Ok(())
}
