// The listing of a journal (document 01, Cases): definitions in specs/ and what is proved of them in proofs/. It has no function; the
// functions that put a listing's text into a lent buffer are in the crates listing_lines, listing_opening and listing_blocks.
#![tactic(auto)]
