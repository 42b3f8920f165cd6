//! Laws of the local check and of the standard PIN work. Each is a function with nothing to do: that its contract is proved
//! is the law.
ghost use Rattle.std.specs.Prelude.{◌≡◌, ◌≢◌, ℕ, Err, List, None, Option, Some, take};
ghost use Rattle.des_core.specs.TripleDes.{tdea_bytes};
ghost use Rattle.local_check.specs.Checks.{checks};
ghost use Rattle.local_check.specs.StandardWork.{standard_rules};
ghost use Rattle.pad_steps.specs.declared.commands.CheckRequest.{CheckRequest};
ghost use Rattle.pad_steps.specs.declared.commands.ExtraRequest.{ExtraRequest};
ghost use Rattle.pad_steps.specs.declared.commands.PinRequest.{PinRequest};
ghost use Rattle.pad_steps.specs.declared.commands.PinRequest.TheVariants.{Extra};
ghost use Rattle.pin_blocks.specs.declared.work.AdmitFault.TheVariants.{UnsuppCommand};
ghost use Rattle.pin_blocks.specs.declared.work.PinFault.TheVariants.{InvalidKeyLength};

/// A check depends on no digit past its count: PINs that begin with the same digits, as many as the count, get one answer.
pub fn check_depends_on_no_digit_past_its_count()
    ensures { (check : CheckRequest) (first second key : List ℕ) →
        take check.count first ≡ take check.count second →
        checks tdea_bytes check first key ≡ checks tdea_bytes check second key }
{}

/// The standard work refuses a PIN command by the PIN's length alone: never for the length of a key, which it does not look
/// at.
pub fn standard_work_refuses_no_key_length()
    ensures never { (request : PinRequest) (size first : ℕ) (second : Option ℕ) →
        (standard_rules tdea_bytes).ready request size first second ≢ Err InvalidKeyLength }
    ensures unseen { (request : PinRequest) (size first other_first : ℕ) (second other_second : Option ℕ) →
        (standard_rules tdea_bytes).ready request size first second ≡ (standard_rules tdea_bytes).ready request size other_first other_second }
{}

/// The standard work admits no extra command.
pub fn standard_work_admits_no_extra()
    ensures { (extra : ExtraRequest) → (standard_rules tdea_bytes).admit (Extra extra) ≡ Some UnsuppCommand }
{}
