//! The items and warehouses that records make, added to a master and taken away again.
ghost use Rattle.std.specs.Prelude.{◌≡◌, None, OnOk, OnErr, IfErr};
ghost use Rattle.voucher_kinds.specs.Heads.{made_by, made_fault, with_made, without_last};

use item_master::faults::MasterFault;
use item_master::master::Master;
use stock_model::vouchers::What;
use stock_nums::numbers::RecordNo;

/// What a record makes.
#[derive(Clone, Copy)]
pub(crate) enum Made {
    Item,
    Store,
    Movements,
}

/// Which of these the record makes.
pub(crate) fn made_by(what: &What) -> Made
    ensures { result ≡ made_by what.now }
{
    match what {
        What::Item { code: _, method: _ } => Made::Item,
        What::Store {
            code: _,
            account: _,
        } => Made::Store,
        _ => Made::Movements,
    }
}

/// Adds the item or the warehouse that the record with this number makes, if it makes one. It has no
/// fault, so that only memory can be wanting. A refusal changes nothing.
pub(crate) fn add_made(
    master: &mut Master,
    number: RecordNo,
    what: &What,
) -> Result<(), MasterFault>
    requires { made_fault master.old what.now ≡ None }
    ensures added { OnOk result (master.new ≡ with_made master.old number.0 what.now) }
    ensures memory { IfErr result (λ f. f ≡ MasterFault.NoMemory) }
    ensures unchanged { OnErr result (master.new ≡ master.old) }
{
    match what {
        What::Item { code, method } => master.add_item(number, code, *method),
        What::Store { code, account } => master.add_store(number, code, *account),
        _ => Ok(()),
    }
}

/// Takes the last item or the last warehouse away again. It takes no memory.
pub(crate) fn take_away(master: &mut Master, made: Made)
    ensures { master.new ≡ without_last master.old made }
{
    match made {
        Made::Item => master.pop_item(),
        Made::Store => master.pop_store(),
        Made::Movements => {}
    }
}
