//! What texts say, which laws leave open.

/// A law of a function with this bound holds whatever texts say.
pub trait Reads {
    ghost use Rattle.yw_state.specs.Texts.{Reader};

    /// Which texts are specifications, and which spell conditions.
    ghost reader: { Reader };
}
