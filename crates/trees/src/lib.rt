// The theory of the listing.
#![tactic(auto)]
