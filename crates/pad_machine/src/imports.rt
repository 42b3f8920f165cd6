// Imports: what a command comes to.
ghost use Rattle.std.specs.Prelude.{◌≡◌, false};
ghost use Rattle.flat_machine.specs.Imports.{import_refusal, import_work};
ghost use Rattle.flat_machine.specs.RequestSteps.{import_invalid};
ghost use Rattle.flat_machine.specs.Settings.{triple_des};

use crate::refusals::{denied, refused};
use check_values::check_value;
use flat_machine::types::Work;
use key_attributes::Use;
use key_import::{ImportFault, decide_import};
use key_table::StoredKeys;
use pad_steps::{ImportRequest, ImportSource, Refusal};
use secure_entry::PartBuffer;

/// What an import comes to.
pub fn import_work(keys: &StoredKeys, part: &PartBuffer, request: &ImportRequest) -> Work
    requires { import_invalid request.now ≡ false }
    ensures { result ≡ import_work triple_des keys.now.rows part.now request.now }
{
    let kek = match &request.source {
        ImportSource::Clear(_) | ImportSource::Part => None,
        ImportSource::Sealed(name, _) => match keys.permit(name, Use::KeyEncKey) {
            Ok(key) => Some(key),
            Err(why) => return denied(why, name),
        },
    };
    let target = keys.find(&request.name);
    let part_value = part.value();
    let row = match decide_import(request, target, kek, part_value.as_ref()) {
        Ok(row) => row,
        Err(fault) => return refused(import_refusal(fault)),
    };
    if let Some(name) = keys.duplicate(&row) {
        return refused(Refusal::DuplicateKey(name));
    }
    let Some(slot) = keys.slot_for(&row.name) else {
        return refused(Refusal::TableFull);
    };
    Work::Keep {
        slot,
        check: check_value(&row.value, request.verify),
        row,
        from_part: matches!(request.source, ImportSource::Part),
    }
}

// The refusal of an import that makes no row.
fn import_refusal(fault: ImportFault) -> Refusal
    ensures { result ≡ import_refusal fault }
{
    match fault {
        ImportFault::AccessDenied => Refusal::AccessDenied,
        ImportFault::InvalidKeyLength => Refusal::InvalidKeyLength,
    }
}
