//! The members of a structure, in their order.

ghost use Rattle.std.specs.Prelude.{◌≡◌, ◌<◌, ◌≢◌, ◌↔◌, ◌++◌, ◌∷◌, [], ℕ, List, length, map, position, slice_get, option_map, IfOk, IfErr, Some, IsSome, OnOk, OnErr, IsTrue};
ghost use Rattle.std.specs.List.{Contains, IsDistinct};
ghost use Rattle.std.specs.Str.{bytes_eq};
ghost use Rattle.data_types.specs.Members.{named_members, names_in};

use crate::MemberType;
use indexmap::IndexMap;
use plain_lists::{Duplicate, Text, both};
use std::alloc::{AllocError, AllocFailed, Global};
use std::marker::Model;

/// The members of a structure by name, in the order in which their fields lie. No two have one name.
#[derive(Drop)]
pub struct Members {
    members: IndexMap<String, MemberType>,
}

impl Model for Members {
    ghost use Rattle.std.specs.Prelude.{ℕ, List};
    ghost use Rattle.data_types.specs.declared.member_type.MemberType.{MemberType};

    ghost Value = { List (List ℕ × MemberType) };

    ghost use Rattle.data_types.specs.Members.{named_members};

    ghost view = { λ m. named_members m.members.entries };
}

impl Members {
    /// No members. It takes no memory.
    pub fn new(alloc: Global) -> Members
        ensures { result ≡ [] }
    {
        Members {
            members: IndexMap::new(alloc),
        }
    }

    /// No members, with room for this many.
    pub fn with_capacity(alloc: Global, members: usize) -> Result<Members, AllocError>
        ensures { IfOk result (λ m. m ≡ []) }
    {
        Ok(Members {
            members: IndexMap::with_capacity(alloc, members)?,
        })
    }

    /// The members of this map, in its order. It takes no memory.
    pub fn from_map(members: IndexMap<String, MemberType>) -> Members
        ensures { result ≡ named_members members.entries }
    {
        Members { members }
    }

    /// The members as a map from names, in their order. It takes no memory.
    pub fn into_map(self) -> IndexMap<String, MemberType>
        ensures { named_members result.entries ≡ self }
    {
        let Self { members } = self;
        members
    }

    /// The number of members.
    pub fn len(&self) -> usize
        ensures len { result ≡ length self.now }
        ensures distinct { IsDistinct bytes_eq (names_in self.now) }
    {
        self.members.len()
    }

    /// Whether there is no member.
    pub fn is_empty(&self) -> bool
        ensures { IsTrue result ↔ (self.now ≡ []) }
    {
        self.members.is_empty()
    }

    /// The name and the type of the member at this index, from 0 on. None where there are no more members.
    pub fn get(&self, index: usize) -> Option<(&str, &MemberType)>
        ensures { option_map (λ m. (m.0.now, m.1.now)) result ≡ slice_get self.now index }
    {
        let (name, member) = self.members.get_index(index)?;
        Some((name.as_str(), member))
    }

    /// Whether a member has this name.
    pub fn contains(&self, name: &str) -> bool
        ensures { IsTrue result ↔ Contains (names_in self.now) name.now }
    {
        self.members.contains_key(name)
    }

    /// The index of the member of this name, from 0 on. None where no member has it.
    pub fn index_of(&self, name: &str) -> Option<usize>
        ensures { result ≡ position (bytes_eq name.now) (names_in self.now) }
    {
        self.members.get_index_of(name)
    }

    /// Adds a member of a new name after the others. A refusal of memory hands it back.
    pub fn push(
        &mut self,
        name: Text,
        member: MemberType,
    ) -> Result<(), AllocFailed<(Text, MemberType)>>
        requires { Contains (names_in self.old) name → ⊥ }
        ensures ok { OnOk result (self.new ≡ self.old ++ (name, member) ∷ []) }
        ensures err { OnErr result (self.new ≡ self.old) }
        ensures handed_back { IfErr result (λ e. e.value ≡ (name, member)) }
    {
        match self.members.insert(name.into_string(), member) {
            Ok(none) => {
                drop(none);
                Ok(())
            }
            Err(refused) => {
                let (name, member) = refused.value;
                Err(AllocFailed {
                    value: (Text::from_string(name), member),
                })
            }
        }
    }

    /// Adds a copy of a member of a new name after the others.
    fn push_copy(
        &mut self,
        name: &str,
        member: &MemberType,
        alloc: Global,
    ) -> Result<(), AllocError>
        requires { Contains (names_in self.old) name.now → ⊥ }
        ensures { OnOk result (self.new ≡ self.old ++ (name.now, member.now) ∷ []) }
    {
        let (name, member) = both(Text::from_str(alloc, name), member.copy(alloc))?;
        Ok(self.push(name, member)?)
    }

    /// The name of the member at this index.
    pub fn name_at(&self, index: usize) -> &str
        requires { index < length self.now }
        ensures { option_map (λ m. m.0) (slice_get self.now index) ≡ Some result.now }
    {
        match self.members.get_index(index) {
            Some((name, _)) => name.as_str(),
            None => unreachable!(),
        }
    }

    /// The type of the member at this index.
    pub fn member_at(&self, index: usize) -> &MemberType
        requires { index < length self.now }
        ensures { option_map (λ m. m.1) (slice_get self.now index) ≡ Some result.now }
    {
        match self.members.get_index(index) {
            Some((_, member)) => member,
            None => unreachable!(),
        }
    }
}

impl Duplicate for Members {
    fn copy(&self, alloc: Global) -> Result<Members, AllocError> {
        let mut copied = Members::with_capacity(alloc, self.len())?;
        for index in 0..self.len() {
            copied.push_copy(self.name_at(index), self.member_at(index), alloc)?;
        }
        Ok(copied)
    }
}
