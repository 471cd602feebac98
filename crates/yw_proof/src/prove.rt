// The words `prove`: a text is judged as a certificate.
use crate::finding::{PROOF_LIMIT, ProofFinding, judge};
use crate::line::finding_line;
use std::alloc::{AllocError, Global};
use yw_base::Bytes;
use yw_judge::Judgement;

/// A text is judged as a certificate of a net: `{"net":NAME,"toml":TEXT,"weights":{..}}`, with a whole number from 1 to 4,294,967,295 for each
/// place and each task of the net, under the place's text or the task's name. The line is `{"bound":W,"net":NAME,"ok":true,"spec":NAME}` where
/// the weights are a certificate, as `yw_proper` defines it, with the weight of the net's input; and else `{"at":AT,"ok":false,"rule":RULE}`
/// with the first of these: `LineTooLong` (more than 2,097,152 bytes), `NotJson`, `NotProof` (another shape); `SpecText`, `SpecShape` and
/// `SpecCheck`, as under `check`; `UnknownNet`; `Weight` at the first place or task in order without such a number, or else at the first key in
/// byte order that is neither; `Rises` at `join t` or `split t` for the first task t whose join or split isn't right, or else at `ends`. The
/// words and the line are our own.
impl Judgement for ProofFinding {
    ghost use Rattle.yw_proof.specs.Found.{IsFound, accepts, proof_limit};
    ghost use Rattle.yw_proof.specs.Lines.{finding_line};
    ghost use Rattle.yw_proof.specs.FoundLaws.{found-once, front-finds};

    ghost limit = { proof_limit };

    ghost is_found = { IsFound };

    ghost accepts = { accepts };

    ghost line = { finding_line };

    #[tactic(auto, unfolding(crate::specs::Found::proof_limit))]
    fn limit() -> usize {
        PROOF_LIMIT
    }

    fn judge(alloc: Global, bytes: &[u8]) -> Result<ProofFinding, AllocError> {
        judge(alloc, bytes)
    }

    fn accepts(&self) -> bool {
        matches!(self, ProofFinding::Proved { .. })
    }

    fn line(&self, alloc: Global) -> Result<Bytes, AllocError> {
        finding_line(alloc, self)
    }

    ghost found_once = { found-once };

    ghost found_of_front = { front-finds };
}
