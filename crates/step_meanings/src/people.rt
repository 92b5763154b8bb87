//! The people of a script, in the order of their numbers.

ghost use Rattle.std.specs.Prelude.{◌≡◌, ◌≤◌, ◌<◌, ◌^◌, ◌+◌, ◌++◌, ◌∷◌, [], None, Some, length, map, slice_get, slice_set, OnOk, IfOk, IfSome, IfNone};
ghost use Rattle.std.specs.List.{position};
ghost use Rattle.std.specs.Option.{option_map};
ghost use Rattle.std.specs.Str.{bytes_eq};
ghost use Rattle.step_meanings.specs.People.{◌>>=◌ as and_then, SignedBy, signature_of, used_once, person_by, key_by, keys_by, numbers_by, who_of, sign};

use channel_values::{Key, Label, Listed, Name, NoMemory, person_name};
use lms_signatures::{SignFault, Signer};
use std::alloc::Global;
use std::marker::Model;

/// A person: its number, from 1, its public key, and its hand where it has no node.
#[derive(Drop)]
pub struct Person {
    pub number: u32,
    pub name: Label,
    pub key: Key,
    pub hand: Option<Signer>,
}

impl Person {
    /// The digest that names the person.
    pub fn who(&self) -> Name
        ensures { result ≡ who_of self.now }
    {
        person_name(&self.key)
    }
}

/// The people, as they were declared. They are at most sixteen.
#[derive(Drop)]
pub struct People {
    people: Vec<Person>,
}

impl Model for People {
    ghost use Rattle.std.specs.Prelude.{List, length, ◌≤◌};
    ghost use Rattle.step_meanings.specs.declared.people.Person.{Person};

    ghost Value = { List Person };

    ghost view = { λ p. p.people.items };

    ghost invariant = { λ p. length p.people.items ≤ 16 };
}

impl People {
    /// Nobody yet.
    pub fn make(alloc: Global) -> People
        ensures { result ≡ [] }
    {
        People {
            people: Vec::new(alloc),
        }
    }

    /// The people in the order of their numbers.
    pub fn as_slice(&self) -> &[Person]
        ensures all { result.now ≡ self.now }
        ensures few { length result.now ≤ 16 }
    {
        self.people.as_slice()
    }

    /// One more person, as the last.
    pub fn push(&mut self, person: Person) -> Result<(), NoMemory>
        requires { length self.old < 16 }
        ensures { OnOk result (self.new ≡ self.old ++ person ∷ []) }
    {
        self.people.push(person)?;
        Ok(())
    }

    /// The person of this name.
    pub fn person_by(&self, name: &str) -> Option<&Person>
        ensures { option_map (λ p. p.now) result ≡ person_by self.now name.now }
    {
        self.people.iter().find(|p| p.name.as_str() == name)
    }

    /// The public key of the person of this name.
    pub fn key_by(&self, name: &str) -> Option<Key>
        ensures { result ≡ key_by self.now name.now }
    {
        match self.person_by(name) {
            Some(person) => Some(person.key),
            None => None,
        }
    }

    /// The number of the person of this name.
    fn number_by(&self, name: &str) -> Option<u32>
        ensures { result ≡ option_map (λ p. p.number) (person_by self.now name.now) }
    {
        match self.person_by(name) {
            Some(person) => Some(person.number),
            None => None,
        }
    }

    /// The public keys of the people of these names.
    pub fn keys_by(&self, alloc: Global, names: &[Label]) -> Result<Vec<Key>, NoMemory>
        ensures { IfOk result (λ keys. keys.items ≡ keys_by self.now names.now) }
    {
        let mut keys = Vec::new(alloc);
        for name in names {
            if let Some(key) = self.key_by(name.as_str()) {
                keys.push(key)?;
            }
        }
        Ok(keys)
    }

    /// The numbers of the people of these names.
    pub fn numbers_by(&self, alloc: Global, names: &[Label]) -> Result<Listed<u32>, NoMemory>
        ensures { IfOk result (λ numbers. numbers ≡ numbers_by self.now names.now) }
    {
        let mut numbers = Vec::new(alloc);
        for name in names {
            if let Some(number) = self.number_by(name.as_str()) {
                numbers.push(number)?;
            }
        }
        Ok(Listed::make(numbers))
    }

    fn place_of(&self, name: &str) -> Option<usize>
        ensures place { result ≡ position (λ p. bytes_eq p.name name.now) self.now }
        ensures inside { IfSome result (λ place. place < length self.now) }
    {
        self.people.iter().position(|p| p.name.as_str() == name)
    }

    /// The signature of the person at a place, at its next index, unless it has no hand or its key is spent.
    fn sign_at(&mut self, place: usize, message: &[u8]) -> Result<Option<Listed<u8>>, NoMemory>
        requires { place < length self.old }
        ensures signed { IfOk result (λ signature.
            option_map {U = SignedBy} (λ s. record { signature = s; people = self.new }) signature
            ≡ and_then (slice_get self.old place) (λ p.
            and_then p.hand (λ hand. and_then (signature_of hand message.now) (λ s.
            Some (record { signature = s; people = slice_set self.old place (used_once p hand) }))))) }
        ensures unsigned { IfOk result (λ signature. signature ≡ None → self.new ≡ self.old) }
    {
        let Some(hand) = &mut self.people[place].hand else {
            return Ok(None);
        };
        match hand.sign(message) {
            Ok(signature) => Ok(Some(Listed::make(signature))),
            Err(SignFault::KeySpent(_)) => Ok(None),
            Err(SignFault::NoMemory) => Err(NoMemory),
        }
    }

    /// The signature of the person of this name, at its next index, unless it has no hand or its key is spent.
    #[tactic(auto, using(crate::proofs::Places::nobody_signs))]
    pub fn sign(&mut self, name: &str, message: &[u8]) -> Result<Option<Listed<u8>>, NoMemory>
        ensures signed { IfOk result (λ signature.
            option_map (λ s. record { signature = s; people = self.new }) signature
            ≡ sign self.old name.now message.now) }
        ensures unsigned { IfOk result (λ signature. signature ≡ None → self.new ≡ self.old) }
    {
        let Some(place) = self.place_of(name) else {
            return Ok(None);
        };
        let signature = self.sign_at(place, message)?;
        Ok(signature)
    }
}
