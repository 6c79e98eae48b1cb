// RULES 3: identifiers taken apart and formed, frames checked, bytes as one number.
pub use frame::{
    Apart, BadFrame, BadIdentifier, Checked, Destination, Formed, NotFormed, Parts, Verdict,
    bytes_of, catalogue_form, check, destination_of, dgn_bytes, dgn_of, form, number_of, standard,
    take_apart,
};
