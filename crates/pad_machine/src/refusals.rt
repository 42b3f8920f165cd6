// Refusals of commands.
ghost use Rattle.std.specs.Prelude.{◌≡◌, None, Some};
ghost use Rattle.flat_machine.specs.Decisions.{denial};
ghost use Rattle.flat_machine.specs.declared.types.Work.TheVariants.{Refuse};

use flat_machine::types::Work;
use key_table::Denied;
use pad_steps::Refusal;
use pad_words::KeyName;

/// A refusal that accuses no key.
pub fn refused(refusal: Refusal) -> Work
    ensures { result ≡ Refuse refusal None }
{
    Work::Refuse {
        refusal,
        accused: None,
    }
}

/// The refusal of a use of this key that is denied. It accuses the key.
pub fn denied(why: Denied, name: &KeyName) -> Work
    ensures { result ≡ Refuse (denial why) (Some name.now) }
{
    let refusal = match why {
        Denied::KeyNotFound => Refusal::KeyNotFound,
        Denied::KeyNoValue => Refusal::KeyNoValue,
        Denied::UseViolation => Refusal::UseViolation,
    };
    Work::Refuse {
        refusal,
        accused: Some(name.copy()),
    }
}
