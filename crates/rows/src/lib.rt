// Writing into the bytes that the host lends (docs/LAYOUT.md): what models and answers share.
#![tactic(auto)]

pub mod writing;
