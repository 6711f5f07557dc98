// A site's script played back (document 02, W-203), over the replay language itself: specs/ and proofs/ alone.
#![tactic(auto)]
