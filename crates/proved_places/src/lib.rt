// Where names, tags, tokens and payloads go wrong: what is proved of the places that the tests answer. No code of its own.

#![tactic(auto)]
