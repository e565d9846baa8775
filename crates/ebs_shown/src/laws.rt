// How bytes are shown as text.
ghost use Rattle.std.specs.Prelude.{◌≡◌, ℕ, List, codes, true};
ghost use Rattle.base64.specs.Rfc4648.{encode};
ghost use Rattle.ebs_shown.specs.Values.{base64_text};

/// Checksums are printed in the digits of RFC 4648, section 4, with `=` as padding.
#[tactic(auto, unfolding(crate::specs::Values::base64_text))]
pub fn base64_is_standard()
    ensures { (bytes : List ℕ) → base64_text bytes
        ≡ encode (codes "ABCDEFGHIJKLMNOPQRSTUVWXYZabcdefghijklmnopqrstuvwxyz0123456789+/") 61 true bytes }
{}
