// The three operations that build a policy, each giving the next one (specs/Build.antt), and the adds
// behind their first test, for a policy that is known to obey the rules.
ghost use Rattle.std.specs.Prelude.{◌≡◌, true, ◌<◌, set};
ghost use Rattle.policy.specs.Policy.{policy_ok};
ghost use Rattle.policy.specs.Build.{empty_policy, add_region_of, add_field_of};

use crate::form::{field_follows, size_ok};
use crate::{Built, Field, Policy, Regions};
use v8::ByteOffset;
use v8::numbers::{ACCEPTED, BAD_POLICY, BAD_SIZE, FULL};

// What stands at a place that no field was put at.
const NO_FIELD: Field = Field {
    element: 0,
    permission: 0,
    target: 0,
    offset: ByteOffset(0),
    count: 0,
    lo: 0,
    hi: 0,
};

// The adds take the policy by value and hand it back with a number: the form that document 01 names.
impl Policy {
    // The policy with no regions.
    pub fn empty() -> Policy
        ensures { result ≡ empty_policy }
    {
        Policy {
            regions: Regions {
                count: 0,
                sizes: [0; 8],
                fields: [0; 8],
            },
            fields: [NO_FIELD; 128],
        }
    }

    // The policy with one region more, without fields, of a policy that obeys the rules. Refused: 18 if
    // it has 8 regions, 19 if the size is not allowed.
    pub fn push_region(mut self, size: u16) -> Built
        requires { policy_ok self ≡ true }
        ensures { result ≡ add_region_of self size }
    {
        if 8 <= self.regions.count {
            return Built {
                policy: self,
                number: FULL,
            };
        }
        if !size_ok(size) {
            return Built {
                policy: self,
                number: BAD_SIZE,
            };
        }
        let r = self.regions.count as usize;
        self.regions.sizes[r] = size;
        self.regions.fields[r] = 0;
        self.regions.count += 1;
        Built {
            policy: self,
            number: ACCEPTED,
        }
    }

    // The policy with one field more in a region, of a policy that obeys the rules. Refused: 20 if there is
    // no such region, 18 if the region has 16 fields, 20 if the field breaks a rule.
    pub fn push_field(mut self, region: u8, f: Field) -> Built
        requires { policy_ok self ≡ true }
        ensures { result ≡ add_field_of self region f }
    {
        if self.regions.count <= region {
            return Built {
                policy: self,
                number: BAD_POLICY,
            };
        }
        let r = region as usize;
        let count = self.regions.fields[r];
        if 16 <= count {
            return Built {
                policy: self,
                number: FULL,
            };
        }
        let end = self.end_before(r, count as usize);
        if !field_follows(self.regions.count, self.regions.sizes[r], end, f) {
            return Built {
                policy: self,
                number: BAD_POLICY,
            };
        }
        let place = 16 * r + count as usize;
        self.fields[place] = f;
        self.regions.fields[r] = count + 1;
        Built {
            policy: self,
            number: ACCEPTED,
        }
    }

    // The policy with one region more, without fields. Refused: 20 if the policy given breaks a
    // rule, 18 if it has 8 regions, 19 if the size is not allowed.
    pub fn add_region(mut self, size: u16) -> Built
        ensures { result ≡ add_region_of self size }
    {
        let mut number = BAD_POLICY;
        if self.well_formed() {
            let built = self.push_region(size);
            self = built.policy;
            number = built.number;
        }
        Built {
            policy: self,
            number,
        }
    }

    // The policy with one field more in a region. Refused: 20 if the policy given breaks a rule or
    // has no such region, 18 if the region has 16 fields, 20 if the field breaks a rule.
    pub fn add_field(mut self, region: u8, f: Field) -> Built
        ensures { result ≡ add_field_of self region f }
    {
        let mut number = BAD_POLICY;
        if self.well_formed() {
            let built = self.push_field(region, f);
            self = built.policy;
            number = built.number;
        }
        Built {
            policy: self,
            number,
        }
    }
}
