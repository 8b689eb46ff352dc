//! The part of a vgetrandom state that determines which entries a call leaves.
ghost use Rattle.std.specs.Prelude.{◌≡◌};
ghost use Rattle.audit_keys.specs.Outline.{wiped_outline};

/// The part of a vgetrandom state that determines which entries a call leaves. These entries do not depend on the bytes
/// of the state's key and batch.
#[derive(Clone, Copy, Debug, PartialEq, Eq)]
pub struct Outline {
    /// The generation that a look found when the state's key was read, or 0 if the state has been wiped since.
    pub found: u64,
    /// How many bytes of the batch were served.
    pub served: u8,
}

impl Outline {
    /// The outline of a state whose memory is all zeros.
    pub fn wiped() -> Outline
        ensures { result ≡ wiped_outline }
    {
        Outline {
            found: 0,
            served: 0,
        }
    }
}
