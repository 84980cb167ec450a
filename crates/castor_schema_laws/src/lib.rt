//! Laws of what query files mean: what isn't refused is closed, well typed, as large as its tree of names, and
//! within its limits, and its names have their form. The contract of castor_schema's `check` states them.
#![tactic(auto)]
