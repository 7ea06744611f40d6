//! What a steady record is, and the queues and links of its activations: what they end with, and what keeps them so.
#![tactic(auto)]
