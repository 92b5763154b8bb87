//! What some words ask for, by the definition.

ghost use Rattle.std.specs.Prelude.{◌≡◌, Some, None, [], ◌∷◌, codes, map};
ghost use Rattle.command_words.specs.Words.{asked};
ghost use Rattle.command_words.specs.declared.asking.Asked.TheVariants.{Run, Race, Load};

/// Words that ask for something.
pub fn words_that_ask()
    ensures run { asked (map codes ("run" ∷ [])) ≡ Some Run }
    ensures race { asked (map codes ("race" ∷ [])) ≡ Some Race }
    ensures load { asked (map codes ("load" ∷ "--seed" ∷ "1" ∷ "--count" ∷ "1" ∷ [])) ≡ Some (Load 1 1) }
    ensures turned { asked (map codes ("load" ∷ "--count" ∷ "1000" ∷ "--seed=007" ∷ [])) ≡ Some (Load 7 1000) }
    ensures ended { asked (map codes ("load" ∷ "--seed=0" ∷ "--count=2" ∷ "--" ∷ [])) ≡ Some (Load 0 2) }
    ensures largest { asked (map codes ("load" ∷ "--seed" ∷ "18446744073709551615" ∷ "--count" ∷ "1" ∷ []))
        ≡ Some (Load 18446744073709551615 1) }
    ensures long { asked (map codes ("load" ∷ "--seed" ∷ "00000000000000000001" ∷ "--count" ∷ "1" ∷ []))
        ≡ Some (Load 1 1) }
{}

/// Words that ask for nothing, since they are no form of a request.
pub fn words_that_are_no_request()
    ensures none { asked [] ≡ None }
    ensures capital { asked (map codes ("Run" ∷ [])) ≡ None }
    ensures run_twice { asked (map codes ("run" ∷ "run" ∷ [])) ≡ None }
    ensures race_twice { asked (map codes ("race" ∷ "race" ∷ [])) ≡ None }
    ensures load { asked (map codes ("load" ∷ [])) ≡ None }
    ensures load_run { asked (map codes ("load" ∷ "run" ∷ [])) ≡ None }
    ensures help { asked (map codes ("--help" ∷ [])) ≡ None }
    ensures load_help { asked (map codes ("load" ∷ "--help" ∷ [])) ≡ None }
    ensures short_help { asked (map codes ("load" ∷ "--seed" ∷ "1" ∷ "--count" ∷ "1" ∷ "-h" ∷ [])) ≡ None }
    ensures version { asked (map codes ("load" ∷ "--version" ∷ [])) ≡ None }
    ensures alone { asked (map codes ("load" ∷ "--seed" ∷ "1" ∷ [])) ≡ None }
    ensures twice { asked (map codes ("load" ∷ "--seed" ∷ "1" ∷ "--seed" ∷ "1" ∷ [])) ≡ None }
    ensures repeated { asked (map codes ("load" ∷ "--seed" ∷ "1" ∷ "--count" ∷ "1" ∷ "--seed" ∷ "1" ∷ [])) ≡ None }
    ensures other { asked (map codes ("load" ∷ "--seed" ∷ "1" ∷ "--counts" ∷ "1" ∷ [])) ≡ None }
    ensures more { asked (map codes ("load" ∷ "--seed" ∷ "1" ∷ "--count" ∷ "1" ∷ "1" ∷ [])) ≡ None }
{}

/// Words that ask for nothing, since a value is none.
pub fn words_with_other_values()
    ensures past_64_bits { asked (map codes ("load" ∷ "--seed" ∷ "18446744073709551616" ∷ "--count" ∷ "1" ∷ []))
        ≡ None }
    ensures no_payment { asked (map codes ("load" ∷ "--seed" ∷ "1" ∷ "--count" ∷ "0" ∷ [])) ≡ None }
    ensures too_many { asked (map codes ("load" ∷ "--seed" ∷ "1" ∷ "--count" ∷ "1001" ∷ [])) ≡ None }
    ensures plus { asked (map codes ("load" ∷ "--seed" ∷ "+1" ∷ "--count" ∷ "1" ∷ [])) ≡ None }
    ensures minus { asked (map codes ("load" ∷ "--seed=-1" ∷ "--count" ∷ "1" ∷ [])) ≡ None }
    ensures empty { asked (map codes ("load" ∷ "--seed" ∷ "" ∷ "--count" ∷ "1" ∷ [])) ≡ None }
    ensures cut { asked (map codes ("load" ∷ "--seed=" ∷ "--count" ∷ "1" ∷ [])) ≡ None }
    ensures longest { asked (map codes ("load" ∷ "--seed" ∷ "000000000000000000001" ∷ "--count" ∷ "1" ∷ [])) ≡ None }
    ensures hexadecimal { asked (map codes ("load" ∷ "--seed" ∷ "0a" ∷ "--count" ∷ "1" ∷ [])) ≡ None }
{}
