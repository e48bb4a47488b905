//! A plain program of the machine, that goes by the definitions of [`ap_model`] step by step. It is slow, and makes every list anew;
//! faster programs are compared with it.
#![tactic(auto)]

mod cycle;
mod ports;
mod run;
mod scene;
mod stage;
mod stalls;
mod storages;
mod values;

pub use run::rows;
