//! What a served volume is made of: its parts, what ties them to one another, and what a step of the head and a
//! submission make of them. Definitions.
