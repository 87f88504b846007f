//! autonet, files: the reasons why a journal is rejected.
//!
//! A text can fail to be a journal, or be a journal that is not legal.
//!
//! It depends on `common_lines`, whose `Stop` a reason converts into. Its contract: each reason has its words. It is
//! separate from `journal`, so that proofs about exit statuses need not wait for those about the reader of journals.
#![tactic(auto)]

pub mod cause;
