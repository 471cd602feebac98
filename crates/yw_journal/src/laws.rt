//! What files hold is one thing. A law is the contract of a function that does nothing.
ghost use Rattle.std.specs.Prelude.{◌≡◌, ℕ, List};
ghost use Rattle.yw_outside.specs.declared.image.Image.{Image};
ghost use Rattle.yw_journal.specs.Files.{Content, FileHas, HasContent};

/// A file has one content, and its records end at one offset.
pub fn content_once()
    ensures { (file : List ℕ) (c d : Content) (end stop : ℕ)
        → FileHas file c end → FileHas file d stop → (c ≡ d) × (end ≡ stop) }
{}

/// Both files hold one content.
pub fn held_content_once()
    ensures { (i : Image) (c d : Content) → HasContent c i → HasContent d i → c ≡ d }
{}
