// Layer 2 of the flume, the end of a step: conversion, fills and test 8. Knows the promises of flumegrid, flumepasses, flumeconversion and flumefills.
#![tactic(auto)]

pub mod finishing;
pub mod settings;
