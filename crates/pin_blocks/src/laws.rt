//! Laws of blocks. Each is a function with nothing to do: that its contract is proved is the law.
ghost use Rattle.std.specs.Prelude.{◌≡◌, ◌<◌, All, length};
ghost use Rattle.pad_steps.specs.declared.commands.Form.{Form};
ghost use Rattle.pad_steps.specs.declared.commands.Form.TheVariants as forms;
ghost use Rattle.pin_blocks.specs.TakenBlocks.{AnyParts, BlockParts, FixesThePin, IsTaken, SameCustomer, SameLength, plain_block};

use des_core::laws::exclusive_or_undoes_itself;

/// A block fixes the PIN, whatever the padding nibbles and the fill words.
///
/// In formats 0 and 3 for one account number: for two of them it does not, since the PIN's digits from the third on are XORed
/// with the account number. In format 1 whatever the transaction digits, which stand behind the PIN. These three hold the
/// PIN's length. The blocks of the IBM 3624 and of Diebold do not, so they fix it among PINs of one length: PIN 1234 padded
/// with 5 and PIN 12345 have one block.
pub fn blocks_fix_the_pin()
    ensures format_0 { FixesThePin forms.Iso0 SameCustomer }
    ensures format_1 { FixesThePin forms.Iso1 AnyParts }
    ensures format_3 { FixesThePin forms.Iso3 SameCustomer }
    ensures ibm_3624 { FixesThePin forms.Ibm3624 SameLength }
    ensures diebold { FixesThePin forms.Diebold SameLength }
    ensures diebold_with_coordination_number { FixesThePin forms.DieboldCo SameLength }
{
    exclusive_or_undoes_itself();
}

/// A block is eight bytes, each below 256.
pub fn blocks_are_eight_bytes()
    ensures eight { (form : Form) (parts : BlockParts) → IsTaken form parts → length (plain_block form parts) ≡ 8 }
    ensures small { (form : Form) (parts : BlockParts) → IsTaken form parts → All (λ byte. byte < 256) (plain_block form parts) }
{}
