//! What holds of the definitions of a stock ledger: that movements stand in one order, that value is conserved, that layers
//! are what is left, and that the ledger keeps the stock. None of it runs: these are facts about `stock_model`, with their
//! proofs.
#![tactic(auto)]

pub mod conservation_laws;
pub mod enough_laws;
pub mod layer_laws;
pub mod order_laws;
pub mod selected_laws;
pub mod sheet_laws;
