mod beds;
mod numbers;
mod passes;
mod refusals;
