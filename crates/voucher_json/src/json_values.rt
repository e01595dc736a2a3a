//! The kit's reader of JSON, and the faults that it finds.

ghost use Rattle.std.specs.Prelude.{◌≡◌, ◌⊎◌, Ok, Err, IfOk, IfErr};
ghost use Rattle.serde_json.specs.View.{view};
ghost use Rattle.stock_model.specs.declared.read_faults.ReadFault.{ReadFault};
ghost use Rattle.voucher_json.specs.Texts.{IsJson};

use serde_json::Value;
use std::alloc::Global;
use stock_model::read_faults::ReadFault;

/// The JSON value that a text is.
pub fn json_value(alloc: Global, bytes: &[u8]) -> Result<Value, ReadFault>
    ensures ok { IfOk result (λ value. IsJson bytes.now (Ok (view value))) }
    ensures err { IfErr result (λ f. (f ≡ ReadFault.NoMemory) ⊎ IsJson bytes.now (Err f)) }
{
    match Value::from_slice(alloc, bytes) {
        Ok(value) => Ok(value),
        Err(error) if error.is_memory() => Err(ReadFault::NoMemory),
        Err(_) => Err(ReadFault::BadJson),
    }
}
