// What has a name in a document.
ghost use Rattle.std.specs.Prelude.{◌≡◌, ℕ, List};

use yw_base::Text;
use yw_read::{RawIn, RawNet, RawOut, RawSet, RawTask, RawVar};

/// What has a name in a document: a net, a task, a variable, what a task is given or makes, an assignment by its
/// variable, and a text, which is a name itself.
pub trait Named {
    /// Its name.
    ghost name_of: { Self → List ℕ };

    /// Its name. It takes no memory.
    fn name(&self) -> &Text
        ensures { result.now ≡ name_of self.now };
}

impl Named for Text {
    ghost name_of = { λ text. text };

    fn name(&self) -> &Text {
        self
    }
}

impl Named for RawNet {
    ghost name_of = { λ net. net.name };

    fn name(&self) -> &Text {
        &self.name
    }
}

impl Named for RawTask {
    ghost name_of = { λ task. task.name };

    fn name(&self) -> &Text {
        &self.name
    }
}

impl Named for RawVar {
    ghost name_of = { λ v. v.name };

    fn name(&self) -> &Text {
        &self.name
    }
}

impl Named for RawIn {
    ghost name_of = { λ p. p.name };

    fn name(&self) -> &Text {
        &self.name
    }
}

impl Named for RawOut {
    ghost name_of = { λ p. p.name };

    fn name(&self) -> &Text {
        &self.name
    }
}

impl Named for RawSet {
    ghost name_of = { λ s. s.var };

    fn name(&self) -> &Text {
        &self.var
    }
}
