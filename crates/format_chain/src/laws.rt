//! The law of the bytes of chains.

ghost use Rattle.std.specs.Prelude.{◌≡◌};
ghost use Rattle.format_chain.specs.declared.chain.Chain.{Chain};
ghost use Rattle.format_chain.specs.Chains.{IsChain, chain_bytes};

/// No two chains have one spelling.
pub fn equal_bytes_are_of_equal_chains()
    ensures { (c d : Chain) → IsChain c → IsChain d → chain_bytes c ≡ chain_bytes d → c ≡ d }
{}
