//! Certificates as values: clauses over one bank, with the origins of the members. They stand for the plain records in which
//! validity is defined, so that the checker and whoever makes certificates need know nothing of each other.
#![tactic(auto)]

pub mod certificate;
pub mod member;
pub mod numbers;
pub mod selected_literal;

pub use certificate::{
    Base, By, ByList, Cover, CoverList, Covered, FirstRefutation, GroundHint, GroundHintList,
    GroundLine, GroundLineList, GroundStep, GroundStepList, Refutation, Saturation,
};
pub use member::{Member, MemberList, Origin};
pub use numbers::{covered_numbers, first_numbers, refutation_numbers, saturation_numbers};
pub use selected_literal::{selected, selected_of};
