// The words `check`: a text is judged as a specification.
use crate::finding::{Finding, TEXT_LIMIT, judge};
use crate::line::finding_line;
use std::alloc::{AllocError, Global};
use yw_base::Bytes;
use yw_judge::Judgement;

/// A text is judged as a specification, and the line is `{"ok":true,"spec":"NAME"}` where it is accepted, and else
/// `{"at":AT,"ok":false,"rule":RULE}`. The rule is `SpecText`, `SpecShape` or `SpecCheck` with the place of its first fault, as `yw_texts`
/// defines it; bytes that aren't UTF-8 are no document. Of a text of more than 1,048,576 bytes the rule is `LineTooLong` without a place.
/// The words and the line are our own.
impl Judgement for Finding {
    ghost use Rattle.yw_verdict.specs.Found.{IsFound, accepts, text_limit};
    ghost use Rattle.yw_verdict.specs.Lines.{finding_line};
    ghost use Rattle.yw_verdict.specs.FoundLaws.{found-once, front-finds};

    ghost limit = { text_limit };

    ghost is_found = { IsFound };

    ghost accepts = { accepts };

    ghost line = { finding_line };

    #[tactic(auto, unfolding(crate::specs::Found::text_limit))]
    fn limit() -> usize {
        TEXT_LIMIT
    }

    fn judge(alloc: Global, bytes: &[u8]) -> Result<Finding, AllocError> {
        judge(alloc, bytes)
    }

    fn accepts(&self) -> bool {
        matches!(self, Finding::Accepted(_))
    }

    fn line(&self, alloc: Global) -> Result<Bytes, AllocError> {
        finding_line(alloc, self)
    }

    ghost found_once = { found-once text_limit };

    ghost found_of_front = { front-finds };
}
