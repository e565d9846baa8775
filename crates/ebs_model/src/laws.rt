// The kept form of the machine.
ghost use Rattle.ebs_model.specs.inner.Kept.{ActsAlike, AgesAlike};

/// A step of the machine is the step of its kept form, in which each block has its SHA-256 in the place of its bytes: the
/// same is accepted, refused and answered, but for bytes, and the machines after it are again each other's.
pub fn kept_form()
    ensures acts { ActsAlike }
    ensures ages { AgesAlike }
{}
