// Lists of store numbers: the words that rosters, placements and the service are described with, and what is
// known of them. Theory only: specs/ has the definitions, proofs/ the lemmas, and no function stands here.
#![tactic(auto)]
