// What is found by its name.
ghost use Rattle.std.specs.Prelude.{◌≡◌, List, ℕ};

use yw_base::Name;
use yw_library::Person;
use yw_state::Loaded;

/// What has a name.
pub trait Named: Sized + Drop {
    /// Its name.
    ghost named: { Self → List ℕ };

    /// The name. It takes no memory.
    fn name(&self) -> &Name
        ensures { result.now ≡ named self.now };
}

impl Named for Person {
    ghost use Rattle.yw_library.specs.Holdings.{person_name};

    ghost named = { person_name };

    fn name(&self) -> &Name {
        &self.name
    }
}

impl Named for Loaded {
    ghost use Rattle.yw_library.specs.Holdings.{spec_name};

    ghost named = { spec_name };

    fn name(&self) -> &Name {
        &self.spec.name
    }
}
