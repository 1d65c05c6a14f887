// The store's places, items and changes over any reader, and their theory. No code.
#![tactic(auto)]
