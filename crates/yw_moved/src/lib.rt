//! Where an event of neither a rule tree nor an exlet is done, what it makes, and what it leaves as it was. Definitions and laws alone.
#![tactic(auto)]
